// Where the threads begin, and how long they are, of a job whose threads were good.
ghost use Rattle.std.specs.Prelude.{◌≡◌, [], ◌+◌, ◌*◌, ◌<◌, length, get_or};
ghost use Rattle.rules.specs.Limits.{item_size};
ghost use Rattle.job.specs.Stages.{width_in, threads_of};
ghost use Rattle.job.specs.Laid.{ThreadsGood, StartsLaid};

use crate::Starts;
use readers::{THREADS_AT, VARIABLES_AT, VERSION_AT};
use rules::{HEAD_SIZE, THREADS, Width};

// Threads that were good: the bytes of their job, and where they begin in them.
#[derive(Clone, Copy)]
pub struct LaidThreads<'a> {
    pub bytes: &'a [u8],
    pub starts: &'a Starts,
    pub ghost laid: { StartsLaid bytes.now starts.now },
}

// Behind the thread whose n stands at `at`: n, and then so many instructions.
fn behind(job: &[u8], w: Width, at: usize) -> usize
    requires { at < length job.now }
    ensures { result ≡ at + 1 + item_size w * get_or job.now at 0 }
{
    at + 1 + readers::item_size(w) * usize::from(job[at])
}

// From thread to thread.
pub fn starts(job: &[u8]) -> Starts
    requires { ThreadsGood job.now }
    ensures { StartsLaid job.now result }
{
    let count = usize::from(job[THREADS_AT]);
    let w = tables::width(job[VERSION_AT]);
    let mut threads = [0usize; THREADS];
    let mut at = HEAD_SIZE + readers::value_size(w) * usize::from(job[VARIABLES_AT]);
    for t in 0..count {
        threads[t] = at;
        at = behind(job, w, at);
    }
    Starts { threads, goal: at }
}

impl<'a> LaidThreads<'a> {
    // A thread's n, 0 for a thread that the job doesn't have.
    pub fn length(&self, t: u8) -> u8
        ensures { result ≡ length (get_or (threads_of self.now.bytes.now) t []) }
    {
        if t < self.bytes[THREADS_AT] {
            self.bytes[self.starts.threads[t as usize]]
        } else {
            0
        }
    }

    // Where the instruction at place p of thread t begins.
    pub fn instruction_start(&self, t: u8, p: u8) -> usize
        requires { p < length (get_or (threads_of self.now.bytes.now) t []) }
        ensures { result ≡ get_or self.now.starts.now.threads t 0 + 1 + item_size (width_in self.now.bytes.now) * p }
    {
        self.starts.threads[t as usize]
            + 1
            + readers::item_size(tables::width(self.bytes[VERSION_AT])) * usize::from(p)
    }
}
