// Decodes each case on standard input and prints a line for it. A case is a count, two bytes, and then so many bytes.
#![tactic(auto)]

use readers::faults::Fault;
use rules::Model;
use std::io;

fn print_line(rt: &HostRuntime, answer: Result<Model, Fault>) -> io::Result<()> {
    match answer {
        Ok(_) => println!(rt; "ACCEPTED"),
        Err(fault) => println!(rt; "REFUSED {fault}"),
    }
}

// One case. It fails where the input ends, or has more than there is room for. A line that can't be written is left out.
fn run_case(rt: &HostRuntime) -> io::Result<()> {
    let mut room = [0u8; cases::JOB_ROOM];
    let count = cases::read_job(rt, &mut room)?;
    let _ = print_line(rt, job::decode(&room[..count]));
    Ok(())
}

// Case by case, until one fails. A proved loop has to end, so it counts, to a number that no run comes to.
fn main(rt: HostRuntime) {
    let _ = (0..u64::MAX).try_for_each(|_| run_case(&rt));
}
