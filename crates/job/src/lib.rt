// The job file: any bytes in, a job or the fault out; and where the parts of an accepted job stand.
#![tactic(auto)]

mod goal; // goal.rt: the readers of the goal
pub mod parts; // parts.rt: an accepted job, and its parts
mod threads; // threads.rt: where the threads begin, and how long they are

ghost use Rattle.std.specs.Prelude.{◌≡◌, ℕ, IfOk, IfErr};
ghost use Rattle.rules.specs.File as file;
ghost use Rattle.readers.specs.Refusals.{number_of};
ghost use Rattle.readers.specs.Passed.{At, came_to};
ghost use Rattle.job.specs.Passed as passed;
ghost use Rattle.job.specs.Stages.{rest_stage};
ghost use Rattle.job.specs.Laid.{HeadGood, AcceptedUnder, IsAccepted};

pub use parts::Job;
use readers::faults::{Fault, Refusal};
use readers::{CAPACITY_AT, Code, MODEL_AT, THREADS_AT, VARIABLES_AT, VERSION_AT};
use rules::{HEAD_SIZE, Model, THREADS};
use threads::LaidThreads;

// Where each thread's n stands, 0 for a thread that the job doesn't have; and the goal's flag, with K and the clauses behind it.
#[derive(Clone, Copy)]
pub struct Starts {
    pub threads: [usize; THREADS],
    pub goal: usize,
}

// An accepted job's version, model, C, T and V, and where its threads and its goal begin.
#[derive(Clone, Copy)]
pub struct Layout {
    pub version: u8,
    pub model: Model,
    pub capacity: u8,
    pub threads: u8,
    pub vars: u8,
    pub starts: Starts,
}

// What stands behind a head that was good: the initial values, the threads and the goal.
fn behind_head(job: &[u8]) -> Result<usize, Fault>
    requires { HeadGood job.now }
    ensures { came_to result ≡ rest_stage job.now }
{
    let vars = job[VARIABLES_AT];
    let size = readers::value_size(tables::width(job[VERSION_AT]));
    let start = HEAD_SIZE + size * usize::from(vars);
    if job.len() < start {
        // The first that isn't wholly there begins behind those that are.
        let whole = (job.len() - HEAD_SIZE) / size;
        return Err(Refusal::NotWhole.at(HEAD_SIZE + size * whole));
    }
    Code {
        bytes: job,
        version: job[VERSION_AT],
        vars,
    }
    .threads(job[THREADS_AT], start)?;
    let starts = threads::starts(job);
    goal::goal(&LaidThreads {
        bytes: job,
        starts: &starts,
    })
}

// The model that a byte names, where reading came to the end; a byte that names none is refused at its own place.
fn model_named(k: u8) -> Result<Model, Fault>
    ensures { (next : ℕ) → passed.came_out result ≡ passed.answer (At next) (file.model_of k) }
{
    readers::model(k).ok_or(Refusal::HeadOutOfRange.at(MODEL_AT))
}

// Any bytes: the length is judged first, then the fields from the front. The model of a job that is accepted.
pub fn decode(job: &[u8]) -> Result<Model, Fault>
    ensures { passed.came_out result ≡ passed.answer_of (file.decode job.now) }
{
    readers::length_field(job)?;
    readers::head_fields(job)?;
    behind_head(job)?;
    model_named(job[MODEL_AT])
}

// The layout of a job that the decoder accepts, and the model that it then gives.
pub fn layout_of(job: &[u8], model: Model) -> Layout
    requires { AcceptedUnder job.now model }
    ensures { IsAccepted job.now result }
{
    let starts = threads::starts(job);
    Layout {
        version: job[VERSION_AT],
        model,
        capacity: job[CAPACITY_AT],
        threads: job[THREADS_AT],
        vars: job[VARIABLES_AT],
        starts,
    }
}

// The job that the bytes are, or why they are none.
pub fn read(bytes: &[u8]) -> Result<Job<'_>, Fault>
    ensures accepted { IfOk result (λ j. j.bytes.now ≡ bytes.now) }
    ensures refused { IfErr result (λ f. file.decode bytes.now ≡ file.refused (number_of f.refusal) f.offset) }
{
    let model = decode(bytes)?;
    let layout = layout_of(bytes, model);
    Ok(Job { bytes, layout })
}
