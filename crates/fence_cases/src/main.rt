// Checks the fences of each case on standard input and prints a line for it. A case is a count, two bytes, and then so many bytes.
#![tactic(auto)]

use fences::Answer;
use readers::faults::Fault;
use std::io;

fn print_line(rt: &HostRuntime, answer: Result<Answer, Fault>) -> io::Result<()> {
    match answer {
        Err(fault) => println!(rt; "REFUSED {fault}"),
        Ok(Answer::Fenced) => println!(rt; "FENCED"),
        Ok(Answer::Open(thread, store, load)) => println!(rt; "OPEN {thread} {store} {load}"),
    }
}

// One case. It fails where the input ends, or has more than there is room for. A line that can't be written is left out.
fn run_case(rt: &HostRuntime) -> io::Result<()> {
    let mut room = [0u8; cases::JOB_ROOM];
    let count = cases::read_job(rt, &mut room)?;
    let _ = print_line(rt, fences::fences(&room[..count]));
    Ok(())
}

// Case by case, until one fails. A proved loop has to end, so it counts, to a number that no run comes to.
fn main(rt: HostRuntime) {
    let _ = (0..u64::MAX).try_for_each(|_| run_case(&rt));
}
