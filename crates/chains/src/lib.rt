// An index over the slots of a table: chains of slots, each from its newest back, so that bytes are looked up on the one chain that they belong to.
#![tactic(auto)]

pub mod sums;

ghost use Rattle.std.specs.Prelude.{◌≡◌, ◌+◌, ◌*◌, ◌≤◌, ◌<◌, length};
ghost use Rattle.lent.specs.Parts.{Looked};
ghost use Rattle.chains.specs.Sums.{word_values, chain_of};
ghost use Rattle.chains.specs.Chains.{Indexed, entered, Cleared};

// The chain that the bytes belong to.
pub fn chain_of(bytes: &[u8], width: usize) -> usize
    requires { (0 < width) × (width ≤ word_values) }
    ensures { (result ≡ chain_of bytes.now width) × (result < width) }
{
    let spread = sums::weighed(sums::sum_of(bytes), sums::LAST_WEIGHT);
    let part = spread / 65536 % sums::WORD_VALUES;
    (part * (width as u64) / sums::WORD_VALUES) as usize
}

// Whether one of the counted slots holds the bytes: those on their chain are compared, from the newest back. A number of the index is a slot's plus 1,
// and 0 ends a chain: the index is lent as numbers, from C too.
pub fn known(
    table: &[u8],
    index: &[u32],
    width: usize,
    chain: usize,
    count: usize,
    bytes: &[u8],
) -> bool
    requires in_table { length bytes.now * count ≤ length table.now }
    requires in_index { (0 < width) × (width + count ≤ length index.now) }
    requires on_chain { chain ≡ chain_of bytes.now width }
    requires indexed { Indexed (length bytes.now) table.now index.now width count }
    ensures { Looked (length bytes.now) table.now count bytes.now result }
{
    let size = bytes.len();
    let mut number = index[chain] as usize;
    while let Some(slot) = number.checked_sub(1) {
        if span::same_bytes(table, size * slot, bytes) {
            return true;
        }
        number = index[width + slot] as usize;
    }
    false
}

// The slot becomes the newest on its chain.
pub fn enter(index: &mut [u32], width: usize, chain: usize, slot: usize)
    requires { (chain < width) × (width + slot < length index.old) × (slot + 1 < word_values) }
    ensures { index.new ≡ entered index.old width chain slot }
{
    let newest = index[chain];
    index[width + slot] = newest;
    index[chain] = (slot as u32) + 1;
}

// No slot is on any chain, whatever stood in the index.
pub fn clear(index: &mut [u32], width: usize)
    requires { width ≤ length index.old }
    ensures { Cleared index.new width }
{
    index[..width].fill(0);
}
