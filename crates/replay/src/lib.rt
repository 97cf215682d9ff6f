// Replay: 01, "Replay and fence check". Any bytes as a job, and any bytes as a schedule; nothing is written.
#![tactic(auto)]

ghost use Rattle.rules.specs.File.{job_of};
ghost use Rattle.replay.specs.Meaning.{answer_words, words, ReplayFor, ReplayPromise};

use job::Job;
use readers::faults::Fault;
use rules::Reason;

// What a replay of an accepted job answers: the goal holds at the end, or not; the first step that may not be taken, and why.
#[derive(Clone, Copy)]
pub enum Answer {
    Reaches,
    FallsShort,
    Stuck(usize, Reason),
}

// The schedule of an accepted job, step by step: a step is taken if it may be.
#[tactic(auto, using(crate::specs::Steps::at_step, crate::specs::Steps::stepping_stuck, crate::specs::Steps::stepping_on))]
fn replay_accepted(job: &Job, schedule: &[u8]) -> Answer
    ensures { ReplayFor (job_of job.now.bytes.now) schedule.now (answer_words result) }
{
    let mut x = engine::start(job);
    for (i, &s) in schedule.iter().enumerate() {
        if let Err(why) = engine::may(job, x, s) {
            return Answer::Stuck(i, why);
        }
        x = engine::take(job, x, s);
    }
    if engine::goal(job, x) {
        Answer::Reaches
    } else {
        Answer::FallsShort
    }
}

// The replay: any bytes as a job, any bytes as a schedule, always an answer.
pub fn replay(job: &[u8], schedule: &[u8]) -> Result<Answer, Fault>
    ensures { ReplayPromise job.now schedule.now (words result) }
{
    let accepted = job::read(job)?;
    Ok(replay_accepted(&accepted, schedule))
}
