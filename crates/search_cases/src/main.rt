// Searches each case on standard input in lent memory of its sizes, and prints the answer and a sum over each whole memory afterwards.
// A case is the numbers of table bytes, links, schedule bytes and index numbers to lend, and the number that the index is filled from,
// four bytes each; the count of the job's bytes, two bytes; and then the job.
#![tactic(auto)]

ghost use Rattle.std.specs.Prelude.{◌<◌, ◌≤◌, IfOk, IfSome};
ghost use Rattle.std.proofs.Props.{props};
ghost use Rattle.search_cases.specs.declared.TheConstants.{TABLE_ROOM, LINKS_ROOM, SCHEDULE_ROOM, INDEX_ROOM};

use readers::faults::Fault;
use search::Answer;
use std::io;
use std::io::ErrorKind;

// All that there is to lend; a case that asks for more ends the run.
const TABLE_ROOM: usize = 65536;

const LINKS_ROOM: usize = 1024;

const SCHEDULE_ROOM: usize = 1024;

const INDEX_ROOM: usize = 1024;

// As many index numbers say that there is none: the plain search.
const NO_INDEX: u32 = u32::MAX;

// The largest prime below 2^32.
const SUM_MODULUS: u64 = 4294967291;

// How much of each memory is lent for a case, and what the index is filled from.
#[derive(Clone, Copy)]
struct Sizes {
    table: usize,
    links: usize,
    schedule: usize,
    index: Option<usize>,
    first: u32,
    ghost table_there: { table ≤ TABLE_ROOM },
    ghost links_there: { links ≤ LINKS_ROOM },
    ghost schedule_there: { schedule ≤ SCHEDULE_ROOM },
    ghost index_there: { IfSome index (λ n. n ≤ INDEX_ROOM) } by { Prim.hlevel props },
}

// So much of the room, or a failure where it is more.
fn within(size: u32, room: usize) -> io::Result<usize>
    ensures { IfOk result (λ n. n ≤ room) }
{
    let size = size as usize;
    if size > room {
        return Err(io::Error::from(ErrorKind::InvalidInput));
    }
    Ok(size)
}

fn read_size(rt: &HostRuntime, room: usize) -> io::Result<usize>
    ensures { IfOk result (λ n. n ≤ room) }
{
    within(cases::read_long(rt)?, room)
}

fn read_index_size(rt: &HostRuntime) -> io::Result<Option<usize>>
    ensures { IfOk result (λ index. IfSome index (λ n. n ≤ INDEX_ROOM)) }
{
    match cases::read_long(rt)? {
        NO_INDEX => Ok(None),
        size => Ok(Some(within(size, INDEX_ROOM)?)),
    }
}

fn read_sizes(rt: &HostRuntime) -> io::Result<Sizes> {
    let table = read_size(rt, TABLE_ROOM)?;
    let links = read_size(rt, LINKS_ROOM)?;
    let schedule = read_size(rt, SCHEDULE_ROOM)?;
    let index = read_index_size(rt)?;
    let first = cases::read_long(rt)?;
    Ok(Sizes {
        table,
        links,
        schedule,
        index,
        first,
    })
}

fn print_answer(rt: &HostRuntime, answer: Result<Answer, Fault>) -> io::Result<()> {
    match answer {
        Err(fault) => println!(rt; "REFUSED {fault}"),
        Ok(Answer::Reachable(distance, states)) => println!(rt; "REACHABLE {distance} {states}"),
        Ok(Answer::Unreachable(states)) => println!(rt; "UNREACHABLE {states}"),
        Ok(Answer::Unknown(slots)) => println!(rt; "UNKNOWN {slots}"),
    }
}

// 7 more, modulo 251: no power of two, so that no two slots near each other hold the same bytes.
fn after(x: u8) -> u8 {
    if x < 244 { x + 7 } else { x - 244 }
}

// Each element is what `next` makes of the one before it.
fn fill<T: Copy, F: Fn(T) -> T>(room: &mut [T], first: T, next: F)
    requires { F.IsAlwaysCallable next }
{
    let mut x = first;
    for element in room.iter_mut() {
        *element = x;
        x = next(x);
    }
}

fn mixed(sum: u64, x: u32) -> u64
    ensures { result < SUM_MODULUS }
{
    ((sum % SUM_MODULUS) * 31 + u64::from(x)) % SUM_MODULUS
}

fn sum_of<T: Copy + Into<u32>>(room: &[T]) -> u64 {
    let mut sum = 0;
    for x in room {
        sum = mixed(sum, (*x).into());
    }
    sum
}

// Of the index only what has to be unchanged is looked at: all of it after a refusal, else what was not lent.
fn unchanged_from(answer: Result<Answer, Fault>, lent: usize) -> usize
    ensures { result ≤ lent }
{
    if answer.is_err() { 0 } else { lent }
}

// The search with the front of each memory lent; the sums are over all of it, lent or not. A line that can't be written is left out.
fn run_search(rt: &HostRuntime, sizes: Sizes, job: &[u8]) {
    let mut table = [0u8; TABLE_ROOM];
    let mut links = [0u32; LINKS_ROOM];
    let mut schedule = [0u8; SCHEDULE_ROOM];
    let mut index = [0u32; INDEX_ROOM];
    fill(&mut table, 3, after);
    fill(&mut links, 1000003, |x: u32| x.wrapping_add(1));
    fill(&mut schedule, 5, after);
    fill(&mut index, sizes.first, |x: u32| x.wrapping_add(1));

    let table_lent = &mut table[..sizes.table];
    let links_lent = &mut links[..sizes.links];
    let schedule_lent = &mut schedule[..sizes.schedule];
    let answer = match sizes.index {
        None => search::search(table_lent, links_lent, schedule_lent, job),
        Some(size) => {
            let index_lent = &mut index[..size];
            search::indexed::search_indexed(table_lent, links_lent, schedule_lent, index_lent, job)
        }
    };

    let _ = print_answer(rt, answer);
    let _ = println!(rt;
        "SUMS {} {} {}",
        sum_of(&table),
        sum_of(&links),
        sum_of(&schedule)
    );
    if let Some(size) = sizes.index {
        let _ = println!(rt; "INDEX {}", sum_of(&index[unchanged_from(answer, size)..]));
    }
}

// One case. It fails where the input ends, or asks for more than there is.
fn run_case(rt: &HostRuntime) -> io::Result<()> {
    let mut job = [0u8; cases::JOB_ROOM];
    let sizes = read_sizes(rt)?;
    let count = cases::read_job(rt, &mut job)?;
    run_search(rt, sizes, &job[..count]);
    Ok(())
}

// Case by case, until one fails. A proved loop has to end, so it counts, to a number that no run comes to.
fn main(rt: HostRuntime) {
    let _ = (0..u64::MAX).try_for_each(|_| run_case(&rt));
}
