// An accepted job, and its parts, found by where they begin.
ghost use Rattle.std.specs.Prelude.{◌≡◌, [], length, get_or};
ghost use Rattle.std.proofs.Math.ListN.{get_elem?};
ghost use Rattle.rules.specs.File.{accepted, decode, job_of};
ghost use Rattle.rules.specs.Step.{instruction_at};
ghost use Rattle.rules.specs.Sound.{JobIn};
ghost use Rattle.rules.specs.SoundOnce.{job_once};
ghost use Rattle.tables.specs.Told.{told};
ghost use Rattle.job.specs.Laid.{Laid};

use crate::threads::LaidThreads;
use crate::{Layout, goal};
use readers::{Code, VARIABLES_AT, VERSION_AT};
use rules::{Clause, HEAD_SIZE, Instr};

// Bytes that are a job, and where its parts stand in them.
#[derive(Clone, Copy)]
pub struct Job<'a> {
    pub bytes: &'a [u8],
    pub layout: Layout,
    pub ghost decoded: { decode bytes.now ≡ accepted (job_of bytes.now) },
    pub ghost in_range: { JobIn (job_of bytes.now) } by { job_once (job_of bytes.now) },
    pub ghost laid: { Laid bytes.now layout (job_of bytes.now) },
}

impl<'a> Job<'a> {
    fn threads(&self) -> LaidThreads<'_>
        ensures bytes { result.bytes.now ≡ self.now.bytes.now }
        ensures starts { result.starts.now ≡ self.now.layout.starts }
    {
        LaidThreads {
            bytes: self.bytes,
            starts: &self.layout.starts,
        }
    }

    // The length of thread t, 0 for a thread that is not there.
    pub fn code_length(&self, t: u8) -> u8
        ensures { result ≡ length (get_or (job_of self.now.bytes.now).threads t []) }
    {
        self.threads().length(t)
    }

    // The instruction of thread t at place p, if there is one: at its end the thread has none.
    pub fn instruction_at(&self, t: u8, p: u8) -> Option<Instr>
        ensures { told result ≡ instruction_at (job_of self.now.bytes.now) t p }
    {
        let n = self.code_length(t);
        if n <= p {
            return None;
        }
        let at = self.threads().instruction_start(t, p);
        let code = Code {
            bytes: self.bytes,
            version: self.bytes[VERSION_AT],
            vars: self.bytes[VARIABLES_AT],
        };
        code.instruction_from(n, at)
    }

    // Whether the goal asks that all buffers are empty.
    pub fn flag(&self) -> bool
        ensures { result ≡ (job_of self.now.bytes.now).all_empty }
    {
        self.bytes[self.layout.starts.goal] == 1
    }

    pub fn clause_count(&self) -> u8
        ensures { result ≡ length (job_of self.now.bytes.now).clauses }
    {
        self.bytes[self.layout.starts.goal + 1]
    }

    // The clause at place i, if there is one.
    pub fn clause_at(&self, i: u8) -> Option<Clause>
        ensures { told result ≡ get_elem? (job_of self.now.bytes.now).clauses i }
    {
        if self.clause_count() <= i {
            return None;
        }
        let size = readers::item_size(tables::width(self.bytes[VERSION_AT]));
        let at = self.layout.starts.goal + 2 + size * usize::from(i);
        goal::clause_from(&self.threads(), at)
    }

    // The initial value of variable v, 0 for one that is not there.
    pub fn initial(&self, v: u8) -> u16
        ensures { result ≡ get_or (job_of self.now.bytes.now).initial v 0 }
    {
        if self.layout.vars <= v {
            return 0;
        }
        let w = tables::width(self.bytes[VERSION_AT]);
        readers::value(
            self.bytes,
            w,
            HEAD_SIZE + readers::value_size(w) * usize::from(v),
        )
    }
}
