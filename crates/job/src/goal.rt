// The readers of the goal, over threads that were good.
ghost use Rattle.std.specs.Prelude.{◌≡◌, ◌+◌, ◌≤◌, length};
ghost use Rattle.rules.specs.Limits.{item_size};
ghost use Rattle.rules.specs.File as file;
ghost use Rattle.tables.specs.Told.{told};
ghost use Rattle.readers.specs.Passed.{vars_in, came_to, passed};
ghost use Rattle.job.specs.Passed.{clause_in_bytes};
ghost use Rattle.job.specs.Stages.{width_in, threads_of, goal_stage};

use crate::threads::LaidThreads;
use readers::faults::{Fault, Refusal};
use readers::{LAST_FLAG, THREADS_AT, VARIABLES_AT, VERSION_AT};
use rules::{Clause, FEWEST_CLAUSES, MOST_CLAUSES};

// The bytes from `at` as a clause over the threads, if they are one.
pub fn clause_from(threads: &LaidThreads, at: usize) -> Option<Clause>
    requires { at + item_size (width_in threads.now.bytes.now) ≤ length threads.now.bytes.now }
    ensures { told result
        ≡ clause_in_bytes threads.now.bytes.now (width_in threads.now.bytes.now) (vars_in threads.now.bytes.now) (threads_of threads.now.bytes.now) at }
{
    let job = threads.bytes;
    let i = readers::item_at(job, tables::width(job[VERSION_AT]), at);
    let n = threads.length(i.a);
    tables::clause(job[VARIABLES_AT], job[THREADS_AT], n, i)
}

fn clause(threads: &LaidThreads, at: usize) -> Result<usize, Fault>
    ensures { came_to result
        ≡ passed (file.clause threads.now.bytes.now (width_in threads.now.bytes.now) (vars_in threads.now.bytes.now) (threads_of threads.now.bytes.now) at) }
{
    let size = readers::item_size(tables::width(threads.bytes[VERSION_AT]));
    if !readers::is_there(threads.bytes, at, size) {
        return Err(Refusal::NotWhole.at(at));
    }
    match clause_from(threads, at) {
        Some(_) => Ok(at + size),
        None => Err(Refusal::GoalBad.at(at)),
    }
}

// The flag, K and as many clauses, and no byte more.
pub fn goal(threads: &LaidThreads) -> Result<usize, Fault>
    ensures { came_to result ≡ goal_stage threads.now.bytes.now threads.now.starts.now.goal }
{
    let job = threads.bytes;
    let count_at = readers::field(job, threads.starts.goal, Refusal::GoalBad, 0, LAST_FLAG)?;
    let first = readers::field(
        job,
        count_at,
        Refusal::GoalBad,
        FEWEST_CLAUSES,
        MOST_CLAUSES,
    )?;
    let end = readers::times(job[count_at], first, |at| clause(threads, at))?;
    if end == job.len() {
        Ok(end)
    } else {
        Err(Refusal::NotWhole.at(end))
    }
}
