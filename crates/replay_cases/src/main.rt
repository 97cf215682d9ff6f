// Replays each case on standard input and prints a line for it. A case is the number of steps, four bytes, and the count of the job's bytes,
// two bytes, and then the job and the steps.
#![tactic(auto)]

use readers::faults::Fault;
use replay::Answer;
use std::io;

// More steps than two bytes can count. A case that asks for more ends the run.
const SCHEDULE_ROOM: usize = 70000;

fn print_line(rt: &HostRuntime, answer: Result<Answer, Fault>) -> io::Result<()> {
    match answer {
        Err(fault) => println!(rt; "REFUSED {fault}"),
        Ok(Answer::Reaches) => println!(rt; "REACHES"),
        Ok(Answer::FallsShort) => println!(rt; "FALLS SHORT"),
        Ok(Answer::Stuck(step, why)) => println!(rt; "STUCK {step} {}", reasons::number_of(why)),
    }
}

// One case. It fails where the input ends, or has more than there is room for. A line that can't be written is left out.
fn run_case(rt: &HostRuntime) -> io::Result<()> {
    let mut schedule = [0u8; SCHEDULE_ROOM];
    let mut job = [0u8; cases::JOB_ROOM];
    let steps = cases::read_long(rt)? as usize;
    let count = cases::read_job(rt, &mut job)?;
    cases::read_front(rt, &mut schedule, steps)?;
    let _ = print_line(rt, replay::replay(&job[..count], &schedule[..steps]));
    Ok(())
}

// Case by case, until one fails. A proved loop has to end, so it counts, to a number that no run comes to.
fn main(rt: HostRuntime) {
    let _ = (0..u64::MAX).try_for_each(|_| run_case(&rt));
}
