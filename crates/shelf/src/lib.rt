// The lent memory of a search, whatever is searched: a candidate looked up among the slots and put as a slot's bytes, and the schedule written
// from the links. Where an index is lent, its width is the number of its chains; where none is, it is 0: the promises are stated over that number
// (`specs/Front` `Ready`).
#![tactic(auto)]

ghost use Rattle.std.specs.Prelude.{◌≡◌, false, ◌++◌, ◌+◌, ◌*◌, ◌≤◌, ◌<◌, length, drop};
ghost use Rattle.reach.specs.WalkBack.{walk_back, Walkable};
ghost use Rattle.lent.specs.Parts.{Looked};
ghost use Rattle.chains.specs.Sums.{word_values};
ghost use Rattle.chains.specs.Chains.{entered};
ghost use Rattle.shelf.specs.Front.{Ready, OnChain, Fits, PutDone};

// How many slots are counted, and whether a state was met for which none was left: both, as the memory of `lent/specs/Parts` has them.
#[derive(Clone, Copy)]
pub struct Front {
    pub count: usize,
    pub full: bool,
}

// The link of slot 0.
pub const NO_LINK: u32 = u32::MAX;

// Whether one of the counted slots holds the bytes: from the newest back, since a state that is met again was most often met not long ago.
fn known(table: &[u8], count: usize, bytes: &[u8]) -> bool
    requires { length bytes.now * count ≤ length table.now }
    ensures { Looked (length bytes.now) table.now count bytes.now result }
{
    let size = bytes.len();
    for i in (0..count).rev() {
        if span::same_bytes(table, size * i, bytes) {
            return true;
        }
    }
    false
}

// The chain that the bytes belong to, where there is an index.
fn chain_of(bytes: &[u8], width: usize) -> usize
    requires { width ≤ word_values }
    ensures { OnChain bytes.now width result }
{
    if width == 0 {
        return 0;
    }
    chains::chain_of(bytes, width)
}

// Whether one of the counted slots holds the bytes: by the index, where there is one.
fn looked_up(
    table: &[u8],
    index: &[u32],
    width: usize,
    chain: usize,
    slots: usize,
    count: usize,
    bytes: &[u8],
) -> bool
    requires in_table { (length bytes.now * count ≤ length table.now) × (count ≤ slots) }
    requires ready { Ready (length bytes.now) slots table.now index.now width count }
    requires on_chain { OnChain bytes.now width chain }
    ensures { Looked (length bytes.now) table.now count bytes.now result }
{
    if width == 0 {
        return known(table, count, bytes);
    }
    chains::known(table, index, width, chain, count, bytes)
}

// The slot is entered into the index, where there is one.
fn enter(index: &mut [u32], width: usize, chain: usize, slot: usize)
    requires { 0 < width → (chain < width) × (width + slot < length index.old) × (slot + 1 < word_values) }
    ensures { 0 < width → index.new ≡ entered index.old width chain slot }
{
    if width == 0 {
        return;
    }
    chains::enter(index, width, chain, slot);
}

// One slot more, unless the bytes are known or no slot is left; once a state was left out, no other is taken.
pub fn put(
    table: &mut [u8],
    links: &mut [u32],
    index: &mut [u32],
    width: usize,
    front: Front,
    slots: usize,
    bytes: &[u8],
    link: u32,
) -> Front
    requires { Fits (length bytes.now) slots table.old links.old index.old width front }
    ensures { PutDone (length bytes.now) slots table.old links.old front bytes.now link
        table.new links.new index.new width result }
{
    // A front is given back by its parts: as a whole its padding is copied too, and waited for at the next put.
    let count = front.count;
    if front.full {
        return Front {
            count,
            full: front.full,
        };
    }
    let chain = chain_of(bytes, width);
    if looked_up(table, index, width, chain, slots, count, bytes) {
        return Front {
            count,
            full: front.full,
        };
    }
    if count == slots {
        return Front { count, full: true };
    }
    span::put_bytes(table, bytes.len() * count, bytes);
    links[count] = link;
    enter(index, width, chain, count);
    Front {
        count: count + 1,
        full: false,
    }
}

// The first slot: nothing is counted yet, so nothing is looked up.
pub fn put_first(
    table: &mut [u8],
    links: &mut [u32],
    index: &mut [u32],
    width: usize,
    nothing: Front,
    slots: usize,
    bytes: &[u8],
    link: u32,
) -> Front
    requires fits { Fits (length bytes.now) slots table.old links.old index.old width nothing }
    requires none_left_out { nothing.full ≡ false }
    requires none_counted { nothing.count ≡ 0 }
    requires some_slot { 0 < slots }
    ensures { PutDone (length bytes.now) slots table.old links.old nothing bytes.now link
        table.new links.new index.new width result }
{
    let first = nothing.count;
    let chain = chain_of(bytes, width);
    span::put_bytes(table, bytes.len() * first, bytes);
    links[first] = link;
    enter(index, width, chain, first);
    Front {
        count: first + 1,
        full: false,
    }
}

// The links are walked back from slot `from` to write the schedule, its last step first.
pub fn write_schedule(schedule: &mut [u8], links: &[u32], steps: usize, from: usize)
    requires { (steps ≤ length schedule.old) × Walkable links.now steps from }
    ensures { schedule.new ≡ walk_back links.now steps from ++ drop steps schedule.old }
{
    let mut slot = from;
    for left in (0..steps).rev() {
        let link = links[slot];
        schedule[left] = (link % 64) as u8;
        slot = (link / 64) as usize;
    }
}
