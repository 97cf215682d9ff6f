// Search: 01, "Search". Any bytes as a job, and three lent buffers of any lengths and contents. One search serves with an index and without: where
// none is lent, its width is 0 (request 6; `indexed` has the search that is lent one).
#![tactic(auto)]

pub mod indexed;

ghost use Rattle.std.specs.Prelude.{◌≡◌, ℕ, ◌*◌, ◌≤◌, ◌<◌, length, Ok, MatchOption};
ghost use Rattle.reach.specs.Meaning.{link};
ghost use Rattle.lent.specs.Meaning.{IsAnswered, AnsweredWith};
ghost use Rattle.lent.specs.Parts.{Stands, FirstGoal};
ghost use Rattle.lent.specs.Kept.{Lends};
ghost use Rattle.shelf.specs.Front.{Ready, Fits, PutDone};
ghost use Rattle.rules.specs.Limits.{slot_size, most_slots};
ghost use Rattle.rules.specs.File.{job_of};
ghost use Rattle.rules.specs.Slot.{slot_bytes};
ghost use Rattle.rules.specs.Step.{may, after};
ghost use Rattle.rules.specs.Machine.{machine};
ghost use Rattle.state.specs.Held.{held};
ghost use Rattle.engine.specs.At.{At};
ghost use Rattle.search.specs.Meaning.{found_words, words, SearchPromise};
ghost use Rattle.search.specs.Coded.{coding};
ghost use Rattle.search.specs.Whole.{ExpandDone, Counted, HasRoom};

use job::Job;
use readers::faults::{Fault, Refusal};
use shelf::Front;
use state::State;

// What a search of an accepted job answers: d and R(d); the number of states; N.
#[derive(Clone, Copy)]
pub enum Answer {
    Reachable(usize, usize),
    Unreachable(usize),
    Unknown(usize),
}

// What step s of the state x in slot q leads to is laid out and put.
fn put_next(
    table: &mut [u8],
    links: &mut [u32],
    index: &mut [u32],
    width: usize,
    front: Front,
    slots: usize,
    q: usize,
    s: u8,
    x: State,
    job: &Job,
) -> Front
    requires fits { Fits slot_size slots table.old links.old index.old width front }
    requires slot_in_range { q < most_slots }
    requires at { At job.now.bytes.now x }
    requires may_be_taken { may (job_of job.now.bytes.now) s (held x) ≡ Ok tt }
    ensures { PutDone slot_size slots table.old links.old front
        (slot_bytes (after (job_of job.now.bytes.now) s (held x))) (link q s) table.new links.new index.new width result }
{
    let y = engine::take(job, x, s);
    let link = 64 * (q as u32) + u32::from(s);
    // Each way lays the state out for itself: without an index its pieces are then held in registers, which a look-up by chains does not allow.
    if width == 0 {
        let bytes = slot::bytes_of(y);
        return shelf::put(table, links, index, 0, front, slots, &bytes, link);
    }
    let bytes = slot::bytes_of(y);
    shelf::put(table, links, index, width, front, slots, &bytes, link)
}

// The state in slot q is expanded: its steps from the lowest upward, until no slot is left for what one leads to.
fn expand(
    table: &mut [u8],
    links: &mut [u32],
    index: &mut [u32],
    width: usize,
    front: Front,
    slots: usize,
    q: usize,
    job: &Job,
) -> Front
    requires fits { Fits slot_size slots table.old links.old index.old width front }
    requires counted { q < front.count }
    requires most { slots ≤ most_slots }
    requires stands { Stands (coding (job_of job.now.bytes.now)) table.old q }
    ensures { ExpandDone (job_of job.now.bytes.now) slots q table.old links.old front table.new links.new
        index.new width result }
{
    let x = slot::read_slot(table, q);
    let mask = engine::enabled(job, x);
    let mut at = front;
    for s in bits::each(mask) {
        at = put_next(table, links, index, width, at, slots, q, s, x, job);
        if at.full {
            return at;
        }
    }
    at
}

// The first slot from lo on that holds a goal.
fn find_goal(table: &[u8], lo: usize, count: usize, job: &Job) -> Option<usize>
    requires in_order { lo ≤ count }
    requires in_table { slot_size * count ≤ length table.now }
    requires stand { (i : ℕ) → i < count → Stands (coding (job_of job.now.bytes.now)) table.now i }
    ensures { MatchOption result (FirstGoal (coding (job_of job.now.bytes.now)) table.now lo count count)
        (λ g. (g < count) × FirstGoal (coding (job_of job.now.bytes.now)) table.now lo count g) }
{
    for i in lo..count {
        if engine::goal(job, slot::read_slot(table, i)) {
            return Some(i);
        }
    }
    None
}

// A turn judges a level that is whole, and then expands its states: those from slot `mark` on, which are at distance d. How many turns there are is not
// known before.
fn turns(
    table: &mut [u8],
    links: &mut [u32],
    schedule: &mut [u8],
    index: &mut [u32],
    width: usize,
    slots: usize,
    job: &Job,
) -> Answer
    requires some_slot { 0 < slots }
    requires most { slots ≤ most_slots }
    requires steps { slots ≤ length schedule.old }
    requires lends { Lends slot_size slots table.old links.old }
    requires ready { Ready slot_size slots table.old index.old width 0 }
    ensures { IsAnswered (machine (job_of job.now.bytes.now)) slot_size slot_bytes slots
        (record { table = table.old; links = links.old; schedule = schedule.old }) (found_words result)
        (record { table = table.new; links = links.new; schedule = schedule.new }) }
{
    let nothing = Front {
        count: 0,
        full: false,
    };
    let start = slot::bytes_of(engine::start(job));
    let mut front = shelf::put_first(
        table,
        links,
        index,
        width,
        nothing,
        slots,
        &start,
        shelf::NO_LINK,
    );
    let mut mark: usize = 0;
    let mut d: usize = 0;
    'turns: loop {
        let count = front.count;
        if let Some(goal) = find_goal(table, mark, count, job) {
            shelf::write_schedule(schedule, links, d, goal);
            return Answer::Reachable(d, count);
        }
        if count <= mark {
            return Answer::Unreachable(count);
        }
        for next in mark..count {
            front = expand(table, links, index, width, front, slots, next, job);
            if front.full {
                return Answer::Unknown(slots);
            }
        }
        mark = count;
        d += 1;
    }
}

// N without an index: the smallest of what the three buffers hold and 65,536.
fn slots_lent(table: &[u8], links: &[u32], schedule: &[u8]) -> usize
    ensures { Counted result (record { table = table.now; links = links.now; schedule = schedule.now }) }
{
    (table.len() / rules::SLOT_SIZE)
        .min(links.len())
        .min(schedule.len())
        .min(rules::MOST_SLOTS)
}

// The search of an accepted job with so many slots: the index, whatever it holds, is made empty first.
fn search_accepted(
    table: &mut [u8],
    links: &mut [u32],
    schedule: &mut [u8],
    index: &mut [u32],
    width: usize,
    slots: usize,
    job: &Job,
) -> Result<Answer, Fault>
    requires { HasRoom slots (record { table = table.old; links = links.old; schedule = schedule.old }) index.old width }
    ensures { AnsweredWith (machine (job_of job.now.bytes.now)) slot_size slot_bytes slots
        (record { table = table.old; links = links.old; schedule = schedule.old }) (words result)
        (record { table = table.new; links = links.new; schedule = schedule.new })
        × (slots ≡ 0 → index.new ≡ index.old) }
{
    if slots == 0 {
        return Err(Refusal::NoSlots.at(0));
    }
    chains::clear(index, width);
    Ok(turns(table, links, schedule, index, width, slots, job))
}

// The search: any bytes as a job, any lent memory, always an answer.
pub fn search(
    table: &mut [u8],
    links: &mut [u32],
    schedule: &mut [u8],
    job: &[u8],
) -> Result<Answer, Fault>
    ensures { SearchPromise job.now (record { table = table.old; links = links.old; schedule = schedule.old })
        (words result) (record { table = table.new; links = links.new; schedule = schedule.new }) }
{
    let accepted = job::read(job)?;
    let slots = slots_lent(table, links, schedule);
    search_accepted(table, links, schedule, &mut [], 0, slots, &accepted)
}
