// The machine of a job: its start, the steps that may be taken, what a step does, and its goal.
#![tactic(auto)]

ghost use Rattle.std.specs.Prelude.{◌≡◌, ◌+◌, ◌*◌, ◌^◌, ◌≤◌, ◌<◌, Ok};
ghost use Rattle.rules.specs.Limits.{most_threads, most_variables};
ghost use Rattle.rules.specs.State as states;
ghost use Rattle.rules.specs.Job as jobs;
ghost use Rattle.rules.specs.Step as steps;
ghost use Rattle.rules.specs.Goal as goals;
ghost use Rattle.rules.specs.File.{job_of};
ghost use Rattle.buffer.specs.Held.{BufferOk, held_pending};
ghost use Rattle.state.specs.Held.{StateOk, held};
ghost use Rattle.state.specs.Parts.{Holds};
ghost use Rattle.engine.specs.At.{At, ClauseOk, blank, FlushesOf, may_execute_at};

use buffer::Buf;
use job::Job;
use rules::{
    Clause, MEMORY_SIZE, MOST_THREADS, MOST_VARIABLES, Model, REGISTERS_SIZE, Reason, THREADS,
};
use state::State;

// The state in which all is 0 and empty.
#[tactic(auto, using(crate::proofs::StartLaws::blank_held))]
fn blank() -> State
    ensures { Holds result blank }
{
    State {
        places: [0; THREADS],
        regs: [0; REGISTERS_SIZE],
        mem: [0; MEMORY_SIZE],
        bufs: [Buf::empty(); THREADS],
    }
}

// The state in which the job starts: each variable has its initial value, 0 if the job doesn't have it.
#[tactic(auto, using(crate::proofs::StartLaws::started, crate::proofs::StartLaws::started_more))]
pub fn start(job: &Job) -> State
    ensures { Holds result (jobs.start (job_of job.now.bytes.now)) }
{
    let mut x = blank();
    for cell in 0..MOST_VARIABLES {
        x = x.with_variable(cell, job.initial(cell));
    }
    x
}

// Whether a thread t of the job that is at this place, with these stores pending, may execute, and why not.
#[tactic(auto, using(crate::proofs::StepLaws::may_by_read), unfolding(rules::specs::Step::may_execute))]
fn may_execute(job: &Job, t: u8, place: u8, own: Buf) -> Result<(), Reason>
    requires { BufferOk own }
    ensures { result ≡ may_execute_at (job_of job.now.bytes.now) t place (held_pending own) }
{
    match job.instruction_at(t, place) {
        Some(i) => machine::may_execute(i, job.layout.model, job.layout.capacity, own),
        None => Err(Reason::ThreadEnded),
    }
}

// Whether step s may be taken, and why not. Threads from T up, variables from V up and numbers from 36 up have no step.
pub fn may(job: &Job, x: State, s: u8) -> Result<(), Reason>
    requires { At job.now.bytes.now x }
    ensures { result ≡ steps.may (job_of job.now.bytes.now) s (held x) }
{
    if s < job.layout.threads {
        return may_execute(job, s, x.place(s), x.buffer(s));
    }
    if MOST_THREADS <= s {
        // From 36 up this is no thread of any job.
        let flush = s - MOST_THREADS;
        let t = flush / MOST_VARIABLES;
        let v = flush % MOST_VARIABLES;
        if t < job.layout.threads && v < job.layout.vars {
            return x.buffer(t).may_flush(job.layout.model, v);
        }
    }
    Err(Reason::NoSuchStep)
}

// One instruction of thread t, which may execute.
fn execute(job: &Job, x: State, t: u8) -> State
    requires at { At job.now.bytes.now x }
    requires is_thread { t < most_threads }
    requires may_be_taken { steps.may (job_of job.now.bytes.now) t (held x) ≡ Ok tt }
    ensures { Holds result (steps.after (job_of job.now.bytes.now) t (held x)) }
{
    match job.instruction_at(t, x.place(t)) {
        Some(i) => machine::execute(i, job.layout.model, x, t),
        None => x,
    }
}

// The state after step s, which may be taken.
pub fn take(job: &Job, x: State, s: u8) -> State
    requires at { At job.now.bytes.now x }
    requires may_be_taken { steps.may (job_of job.now.bytes.now) s (held x) ≡ Ok tt }
    ensures { Holds result (steps.after (job_of job.now.bytes.now) s (held x)) }
{
    if s < MOST_THREADS {
        return execute(job, x, s);
    }
    let flush = s - MOST_THREADS;
    machine::flush(x, flush / MOST_VARIABLES, flush % MOST_VARIABLES)
}

// The execute steps that may be taken: bits 0 to 3.
fn executes(job: &Job, x: State) -> u64
    requires { At job.now.bytes.now x }
    ensures { result ≡ steps.enabled_below (job_of job.now.bytes.now) (held x) most_threads }
{
    let mut mask = 0;
    for t in 0..job.layout.threads {
        let place = x.places[t as usize];
        let own = x.bufs[t as usize];
        let on = may_execute(job, t, place, own).is_ok();
        mask = bits::with_bit(mask, t, on);
    }
    mask
}

// The flush steps of a thread t with these stores pending, to so many variables, behind the bits of the steps before them.
fn flushes(model: Model, vars: u8, pending: Buf, t: u8, before: u64) -> u64
    requires buffer_ok { BufferOk pending }
    requires few_variables { vars ≤ most_variables }
    requires is_thread { t < most_threads }
    requires only_steps_before { before < 2 ^ (most_threads + most_variables * t) }
    ensures { (j : jobs.Job) (x : states.State) → FlushesOf j x model vars t (held_pending pending) →
        before ≡ steps.enabled_below j x (most_threads + most_variables * t) → result ≡ steps.enabled_below j x (most_threads + most_variables * (t + 1)) }
{
    if pending.is_empty() {
        return before;
    }
    let mut mask = before;
    for v in 0..vars {
        let on = pending.may_flush(model, v).is_ok();
        mask = bits::with_bit(mask, MOST_THREADS + MOST_VARIABLES * t + v, on);
    }
    mask
}

// The steps that may be taken, as one number: bit s is set exactly when step s may be taken, and 0 exactly when it has a reason.
pub fn enabled(job: &Job, x: State) -> u64
    requires { At job.now.bytes.now x }
    ensures { result ≡ steps.enabled (job_of job.now.bytes.now) (held x) }
{
    let model = job.layout.model;
    let vars = job.layout.vars;
    let mut mask = executes(job, x);
    for t in 0..job.layout.threads {
        let own = x.bufs[t as usize];
        mask = flushes(model, vars, own, t, mask);
    }
    mask
}

// Whether no store is pending.
fn all_empty(x: State) -> bool
    requires { StateOk x }
    ensures { result ≡ goals.every goals.nothing_pending (held x).buffers }
{
    x.bufs.iter().all(|stores| stores.is_empty())
}

#[tactic(auto, unfolding(rules::specs::Goal::clause_holds))]
fn clause_holds(x: State, c: Clause) -> bool
    requires state_ok { StateOk x }
    requires clause_ok { ClauseOk c }
    ensures { result ≡ goals.clause_holds (held x) c }
{
    match c {
        Clause::PlaceIs(t, p) => x.place(t) == p,
        Clause::RegisterIs(t, r, k) => x.register(t, r) == k,
        Clause::MemoryIs(v, k) => x.variable(v) == k,
    }
}

// Whether all clauses of the goal hold.
fn clauses_hold(job: &Job, x: State) -> bool
    requires { At job.now.bytes.now x }
    ensures { result ≡ goals.every (goals.clause_holds (held x)) (job_of job.now.bytes.now).clauses }
{
    for i in 0..job.clause_count() {
        // There is one for each i below the count; if there weren't, a goal is the side to err on.
        let Some(c) = job.clause_at(i) else {
            return true;
        };
        if !clause_holds(x, c) {
            return false;
        }
    }
    true
}

// Whether the state is a goal: the flag and all clauses hold.
#[tactic(auto, unfolding(rules::specs::Goal::goal))]
pub fn goal(job: &Job, x: State) -> bool
    requires { At job.now.bytes.now x }
    ensures { result ≡ goals.goal (job_of job.now.bytes.now) (held x) }
{
    if job.flag() && !all_empty(x) {
        return false;
    }
    clauses_hold(job, x)
}
