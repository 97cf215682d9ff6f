// The exported C face: the public jobs, each answering in four words. No function has a `requires`: any bytes, any lengths.
#![tactic(auto)]

ghost use Rattle.std.specs.Prelude.{◌≡◌};
ghost use Rattle.reach.specs.Words.{refusal_words};
ghost use Rattle.readers.specs.Refusals.{number_of};
ghost use Rattle.search.specs.Meaning as search_meaning;
ghost use Rattle.replay.specs.Meaning as replay_meaning;
ghost use Rattle.fences.specs.Meaning as fences_meaning;

use readers::faults::Fault;

// The four words of a refusal.
fn refused(fault: Fault) -> [u64; 4]
    ensures { result ≡ refusal_words (number_of fault.refusal) fault.offset }
{
    [0, u64::from(fault.refusal), fault.offset as u64, 0]
}

// The four words of a search's answer.
fn search_words(a: Result<search::Answer, Fault>) -> [u64; 4]
    ensures { result ≡ search_meaning.words a }
{
    match a {
        Err(why) => refused(why),
        Ok(search::Answer::Reachable(d, states)) => [1, d as u64, states as u64, 0],
        Ok(search::Answer::Unreachable(states)) => [2, states as u64, 0, 0],
        Ok(search::Answer::Unknown(slots)) => [3, slots as u64, 0, 0],
    }
}

// The four words of a replay's answer.
fn replay_words(a: Result<replay::Answer, Fault>) -> [u64; 4]
    ensures { result ≡ replay_meaning.words a }
{
    match a {
        Err(fault) => refused(fault),
        Ok(replay::Answer::Reaches) => [1, 0, 0, 0],
        Ok(replay::Answer::FallsShort) => [2, 0, 0, 0],
        Ok(replay::Answer::Stuck(i, why)) => [3, i as u64, reasons::number_of(why), 0],
    }
}

// The four words of a fence check's answer.
fn fences_words(a: Result<fences::Answer, Fault>) -> [u64; 4]
    ensures { result ≡ fences_meaning.words a }
{
    match a {
        Err(fault) => refused(fault),
        Ok(fences::Answer::Fenced) => [1, 0, 0, 0],
        Ok(fences::Answer::Open(t, s, l)) => [2, u64::from(t), u64::from(s), u64::from(l)],
    }
}

#[unsafe(no_mangle)]
pub extern "C" fn handshake_search(
    job: &[u8],
    table: &mut [u8],
    links: &mut [u32],
    schedule: &mut [u8],
    answer: &mut [u64; 4],
)
    ensures { search_meaning.SearchPromise job.now
        (record { table = table.old; links = links.old; schedule = schedule.old }) answer.new
        (record { table = table.new; links = links.new; schedule = schedule.new }) }
{
    *answer = search_words(search::search(table, links, schedule, job));
}

// The same search with an index in one more slice, which is for speed alone: N is then also at most half its length.
#[unsafe(no_mangle)]
pub extern "C" fn handshake_search_indexed(
    job: &[u8],
    table: &mut [u8],
    links: &mut [u32],
    schedule: &mut [u8],
    index: &mut [u32],
    answer: &mut [u64; 4],
)
    ensures { search_meaning.IndexedPromise job.now
        (record { table = table.old; links = links.old; schedule = schedule.old }) index.old answer.new
        (record { table = table.new; links = links.new; schedule = schedule.new }) index.new }
{
    *answer = search_words(search::indexed::search_indexed(table, links, schedule, index, job));
}

#[unsafe(no_mangle)]
pub extern "C" fn handshake_replay(job: &[u8], schedule: &[u8], answer: &mut [u64; 4])
    ensures { replay_meaning.ReplayPromise job.now schedule.now answer.new }
{
    *answer = replay_words(replay::replay(job, schedule));
}

#[unsafe(no_mangle)]
pub extern "C" fn handshake_fences(job: &[u8], answer: &mut [u64; 4])
    ensures { fences_meaning.FencePromise job.now answer.new }
{
    *answer = fences_words(fences::fences(job));
}
