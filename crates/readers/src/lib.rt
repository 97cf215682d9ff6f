// The readers of the job file, up to the end of its threads, each from an offset: where the next item begins, or the first fault.
#![tactic(auto)]

ghost use Rattle.std.specs.Prelude.{◌≡◌, ℕ, ◌+◌, ◌≤◌, leb, length};
ghost use Rattle.rules.specs.Limits.{width_of, value_size, item_size, longest_file};
ghost use Rattle.rules.specs.File as file;
ghost use Rattle.tables.specs.Told.{told};
ghost use Rattle.readers.specs.Refusals.{number_of};
ghost use Rattle.readers.specs.Passed.{Next, Fault as FaultAt, outcome, came_to, Reads, repeated, ItemAt, capacity_at, passed, instruction_in_bytes};
ghost use Rattle.readers.specs.Stages.{length_stage, capacity_stage, head_stage};

pub mod faults; // the refusals, and where they are given

use faults::{Fault, Refusal};
use rules::{
    FIRST_VERSION, HEAD_SIZE, Instr, LAST_VERSION, LENGTH_SIZE, LONGEST_THREAD, MOST_CLAUSES,
    MOST_PENDING, MOST_THREADS, MOST_VARIABLES, Model, SHORTEST_FILE, THREADS, VARIABLES, Width,
};
use tables::Item;

// Where the fields of the head stand, a byte each: "Length first, big-endian, then one version byte", then "model, C, T, V".
pub const VERSION_AT: usize = LENGTH_SIZE;

pub const MODEL_AT: usize = VERSION_AT + 1;

pub const CAPACITY_AT: usize = MODEL_AT + 1;

pub const THREADS_AT: usize = CAPACITY_AT + 1;

pub const VARIABLES_AT: usize = THREADS_AT + 1;

// "SC (model 0", "TSO (model 1", "PSO (model 2"; "0 any buffers, 1 all buffers empty".
pub const LAST_MODEL: u8 = 2;

pub const LAST_FLAG: u8 = 1;

// The bytes of a value: a row for each width, as its definition has.
pub fn value_size(w: Width) -> usize
    ensures { result ≡ value_size w }
{
    match w {
        Width::One => 1,
        Width::Two => 2,
    }
}

// The bytes of an instruction or a clause.
pub fn item_size(w: Width) -> usize
    ensures { result ≡ item_size w }
{
    3 + value_size(w)
}

// The longest file of values this wide: the head, the variables, the threads, flag, K, the clauses.
fn longest_file(w: Width) -> usize
    ensures { result ≡ longest_file w }
{
    let values = value_size(w) * VARIABLES;
    let item = item_size(w);
    let threads = THREADS * (1 + item * (LONGEST_THREAD as usize));
    HEAD_SIZE + values + threads + 1 + 1 + item * (MOST_CLAUSES as usize)
}

// The value that stands at `at`.
pub fn value(job: &[u8], w: Width, at: usize) -> u16
    requires { at + value_size w ≤ length job.now }
    ensures { result ≡ file.value job.now w at }
{
    match w {
        Width::One => words::word(0, job[at]),
        Width::Two => words::word(job[at], job[at + 1]),
    }
}

// The length field, which counts the bytes behind it.
pub fn length_field(job: &[u8]) -> Result<usize, Fault>
    ensures { came_to result ≡ length_stage job.now }
{
    if job.len() < SHORTEST_FILE {
        return Err(Refusal::LengthWrong.at(0));
    }
    if longest_file(tables::width(job[VERSION_AT])) < job.len() {
        return Err(Refusal::LengthWrong.at(0));
    }
    let following = usize::from(words::word(job[0], job[1]));
    if following + LENGTH_SIZE == job.len() {
        Ok(VERSION_AT)
    } else {
        Err(Refusal::LengthWrong.at(0))
    }
}

// A field is one byte from low to high: where the next item begins, or the caller's own answer to a byte that is not there, and to one that is not in
// that range, whatever numbers these stand for.
pub fn field_or<E: Copy>(
    job: &[u8],
    at: usize,
    missing: E,
    wrong: E,
    low: u8,
    high: u8,
) -> Result<usize, E>
    ensures { (number : ℕ) (n : E → Next) → n missing ≡ FaultAt 6 at → n wrong ≡ FaultAt number at →
        outcome n result ≡ passed (file.field job.now number (file.in_range low high) at) }
{
    if job.len() <= at {
        return Err(missing);
    }
    let k = job[at];
    if (low <= k) & (k <= high) {
        Ok(at + 1)
    } else {
        Err(wrong)
    }
}

// A field is one byte from low to high, else it is refused.
pub fn field(job: &[u8], at: usize, refusal: Refusal, low: u8, high: u8) -> Result<usize, Fault>
    ensures { came_to result ≡ passed (file.field job.now (number_of refusal) (file.in_range low high) at) }
{
    field_or(job, at, Refusal::NotWhole.at(at), refusal.at(at), low, high)
}

// C under a model.
#[tactic(auto, unfolding(rules::specs::File::capacity_of))]
fn capacity_under(job: &[u8], m: Model) -> Result<usize, Fault>
    ensures { came_to result ≡ passed (file.field job.now 3 (file.capacity_of m) capacity_at) }
{
    match m {
        Model::Sc => field(job, CAPACITY_AT, Refusal::HeadOutOfRange, 0, 0),
        Model::Tso | Model::Pso => {
            field(job, CAPACITY_AT, Refusal::HeadOutOfRange, 1, MOST_PENDING)
        }
    }
}

// C, whose range goes by the model before it.
fn capacity(job: &[u8]) -> Result<usize, Fault>
    ensures { came_to result ≡ capacity_stage job.now }
{
    if job.len() <= MODEL_AT {
        return Err(Refusal::NotWhole.at(CAPACITY_AT));
    }
    match model(job[MODEL_AT]) {
        Some(m) => capacity_under(job, m),
        None => Err(Refusal::HeadOutOfRange.at(MODEL_AT)),
    }
}

// Version, model, C, T and V.
pub fn head_fields(job: &[u8]) -> Result<usize, Fault>
    ensures { came_to result ≡ head_stage job.now }
{
    field(
        job,
        VERSION_AT,
        Refusal::VersionWrong,
        FIRST_VERSION,
        LAST_VERSION,
    )?;
    field(job, MODEL_AT, Refusal::HeadOutOfRange, 0, LAST_MODEL)?;
    capacity(job)?;
    field(job, THREADS_AT, Refusal::HeadOutOfRange, 1, MOST_THREADS)?;
    field(
        job,
        VARIABLES_AT,
        Refusal::HeadOutOfRange,
        1,
        MOST_VARIABLES,
    )
}

// The model that a byte names, if it names one.
pub fn model(k: u8) -> Option<Model>
    ensures { told result ≡ file.model_of k }
{
    match k {
        0 => Some(Model::Sc),
        1 => Some(Model::Tso),
        2 => Some(Model::Pso),
        3..=255 => None,
    }
}

// The parts of an instruction or a clause that begins at `at`.
pub fn item_at(job: &[u8], w: Width, at: usize) -> Item
    requires { at + item_size w ≤ length job.now }
    ensures { ItemAt job.now w at result }
{
    let c = value(job, w, at + 3);
    Item {
        op: job[at],
        a: job[at + 1],
        b: job[at + 2],
        c,
    }
}

// Whether so many bytes are there from `at`.
pub fn is_there(job: &[u8], at: usize, size: usize) -> bool
    ensures { result ≡ leb (at + size) (length job.now) }
{
    size <= job.len() && at <= job.len() - size
}

// So many items, each from where the one before it ended, up to the first fault.
pub fn times<F: Fn(usize) -> Result<usize, Fault>>(
    count: u8,
    start: usize,
    item: F,
) -> Result<usize, Fault>
    requires { F.IsAlwaysCallable item }
    ensures { (r : ℕ → Next) → Reads (F.post item) r → came_to result ≡ repeated count r start }
{
    let mut at = start;
    'items: for _ in 0..count {
        at = item(at)?;
    }
    Ok(at)
}

// The threads of a file whose head has this version and so many variables.
#[derive(Clone, Copy)]
pub struct Code<'a> {
    pub bytes: &'a [u8],
    pub version: u8,
    pub vars: u8,
}

impl<'a> Code<'a> {
    // The bytes from `at` as an instruction of a thread of length n, if they are one.
    pub fn instruction_from(&self, n: u8, at: usize) -> Option<Instr>
        requires { at + item_size (width_of self.now.version) ≤ length self.now.bytes.now }
        ensures { told result ≡ instruction_in_bytes self.now.bytes.now self.now.version self.now.vars n at }
    {
        let i = item_at(self.bytes, tables::width(self.version), at);
        tables::instruction(self.version, self.vars, n, i)
    }

    fn instruction(&self, n: u8, at: usize) -> Result<usize, Fault>
        ensures { came_to result ≡ passed (file.instruction self.now.bytes.now self.now.version self.now.vars n at) }
    {
        let size = item_size(tables::width(self.version));
        if !is_there(self.bytes, at, size) {
            return Err(Refusal::NotWhole.at(at));
        }
        match self.instruction_from(n, at) {
            Some(_) => Ok(at + size),
            None => Err(Refusal::ThreadBad.at(at)),
        }
    }

    // n, and then as many instructions.
    fn thread(&self, at: usize) -> Result<usize, Fault>
        ensures { came_to result ≡ passed (file.thread self.now.bytes.now self.now.version self.now.vars at) }
    {
        let next = field(self.bytes, at, Refusal::ThreadBad, 0, LONGEST_THREAD)?;
        let n = self.bytes[at];
        times(n, next, |at| self.instruction(n, at))
    }

    pub fn threads(&self, count: u8, start: usize) -> Result<usize, Fault>
        ensures { came_to result ≡ passed (file.times count (file.thread self.now.bytes.now self.now.version self.now.vars) start) }
    {
        times(count, start, |at| self.thread(at))
    }
}
