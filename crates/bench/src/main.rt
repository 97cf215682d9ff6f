// The bench program: 01, "Bench program". Reads a job from standard input, and prints the answers and the verdict.
#![tactic(auto)]

ghost use Rattle.std.specs.Prelude.{◌≡◌, ℕ, ◌≤◌, length, IfOk, Ok, Some};
ghost use Rattle.search.specs.declared.Answer.TheVariants.{Reachable};
ghost use Rattle.bench.specs.Hex.{two_digits};

use readers::faults::Fault;
use std::io::Read;
use std::{fmt, io};
use verdict::Verdict;

// One byte more than the longest job has: whatever is longer is refused, so the rest need not be read.
const INPUT_ROOM: usize = rules::LONGEST_FILE + 1;

const SLOTS: usize = 400;

const TABLE_SIZE: usize = SLOTS * rules::SLOT_SIZE;

// Reads to the end of the input or of the room, however the bytes arrive: it is not known how often. Where a read fails, so does all: a part of a job is
// not the job.
fn read_input(rt: &HostRuntime, room: &mut [u8]) -> io::Result<usize>
    ensures { IfOk result (λ count. count ≤ length room.new) }
{
    let mut count = 0;
    while count < room.len() {
        let more = rt.stdin().read(&mut room[count..])?;
        if more == 0 {
            break;
        }
        count += more;
    }
    Ok(count)
}

// A step in two-digit capital hex.
#[derive(Clone, Copy)]
struct Step(u8);

impl fmt::Display for Step {
    ghost output = { λ step. Some (two_digits step.0) };

    #[tactic(auto, using(crate::proofs::Hex::hex_digits))]
    fn fmt<W: fmt::Write>(&self, f: &mut fmt::Formatter<W>) -> fmt::Result {
        let step = self.0;
        write!(f, "{step:02X}")
    }
}

// The steps with a blank between, and the line's end.
fn print_schedule(rt: &HostRuntime, steps: &[u8]) -> io::Result<()> {
    for (i, step) in steps.iter().enumerate() {
        if i > 0 {
            print!(rt; " ")?;
        }
        print!(rt; "{}", Step(*step))?;
    }
    println!(rt)
}

fn print_reachable(rt: &HostRuntime, states: usize, steps: &[u8]) -> io::Result<()> {
    println!(rt; "REACHABLE {} {states}", steps.len())?;
    print_schedule(rt, steps)
}

fn print_search(
    rt: &HostRuntime,
    answer: Result<search::Answer, Fault>,
    schedule: &[u8],
) -> io::Result<()>
    requires { (d n : ℕ) → answer ≡ Ok (Reachable d n) → d ≤ length schedule.now }
{
    match answer {
        Err(fault) => println!(rt; "REFUSED {fault}"),
        Ok(search::Answer::Reachable(d, states)) => print_reachable(rt, states, &schedule[..d]),
        Ok(search::Answer::Unreachable(states)) => println!(rt; "UNREACHABLE {states}"),
        Ok(search::Answer::Unknown(slots)) => println!(rt; "UNKNOWN {slots}"),
    }
}

// A refusal was printed for the search already.
fn print_fences(rt: &HostRuntime, answer: Result<fences::Answer, Fault>) -> io::Result<()> {
    match answer {
        Err(_) => Ok(()),
        Ok(fences::Answer::Fenced) => println!(rt; "FENCED"),
        Ok(fences::Answer::Open(thread, store, load)) => println!(rt;
            "OPEN {thread} {store} {load}"
        ),
    }
}

fn print_decision(rt: &HostRuntime, release: bool) -> io::Result<()> {
    rt.write_all(verdict::last_line(release))
}

// What is behind a failed write is left out, so no verdict stands without its reasons.
fn print_verdict(rt: &HostRuntime, verdict: Verdict, schedule: &[u8]) -> io::Result<()>
    requires { (d n : ℕ) → verdict.search ≡ Ok (Reachable d n) → d ≤ length schedule.now }
{
    print_search(rt, verdict.search, schedule)?;
    print_fences(rt, verdict.fences)?;
    print_decision(rt, verdict.release)
}

// The verdict says that the steps of a reachable goal are there.
#[tactic(auto, using(verdict::specs::Steps::steps_there))]
fn answer(rt: &HostRuntime, job: &[u8]) {
    let mut table = [0u8; TABLE_SIZE];
    let mut links = [0u32; SLOTS];
    let mut schedule = [0u8; SLOTS];
    let verdict = verdict::judge(&mut table, &mut links, &mut schedule, job);
    if print_verdict(rt, verdict, &schedule).is_err() {
        let _ = eprintln!(rt;
            "bench: the answer could not be written to standard output; take it as HOLD"
        );
    }
}

fn main(rt: HostRuntime) {
    let mut room = [0u8; INPUT_ROOM];
    match read_input(&rt, &mut room) {
        Ok(count) => answer(&rt, &room[..count]),
        Err(_) => {
            let _ = eprintln!(rt;
                "bench: standard input could not be read, so nothing was checked; run it again with a job file as standard input"
            );
            let _ = println!(rt; "HOLD");
        }
    }
}
