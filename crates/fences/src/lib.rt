// Fence check: 01, "Replay and fence check", and 02, request 4. Any bytes as a job; nothing is written.
#![tactic(auto)]

ghost use Rattle.std.specs.Prelude.{◌≡◌, ◌<◌, ◌↔◌, IsTrue, length};
ghost use Rattle.rules.specs.File.{job_of};
ghost use Rattle.rules.specs.Fences as rules;
ghost use Rattle.fences.specs.Meaning.{answer_words, words, FenceFor, FencePromise};
ghost use Rattle.fences.specs.Places.{code, Onwards, Joined, Grown, Met, LeastBelow, MetLoad, FromPlaceZero, LiveBy, LiveStore, PairMeans};

use job::Job;
use readers::faults::Fault;
use rules::{Control, Passing, Role};

// What a fence check of an accepted job answers: no pair is open; the least open pair, its thread, store place and load place.
#[derive(Clone, Copy)]
pub enum Answer {
    Fenced,
    Open(u8, u8, u8),
}

// Whether a walk may pass an instruction.
fn passes(by: Passing, own: Role) -> bool
    ensures { IsTrue result ↔ rules.Passes by own }
{
    match by {
        Passing::Anything => true,
        Passing::NoFence => !matches!(own, Role::Fences),
    }
}

// Which walks are meant: where they begin, and what they may pass behind it.
#[derive(Clone, Copy)]
struct Walks {
    first: u8,
    by: Passing,
}

// Whether a walk goes on from place p: it is the first itself, or was met and may be passed.
fn goes_on(walks: Walks, met: u64, p: u8, own: Role) -> bool
    ensures { IsTrue result ↔ Onwards walks.by met walks.first p own }
{
    p == walks.first || passes(walks.by, own) && bits::has(met, p)
}

// The places met, and the successors of place p.
fn with_successors(met: u64, p: u8, control: Control) -> u64
    requires { p < 255 }
    ensures { Joined (rules.onward p control) met result }
{
    match control {
        Control::On => bits::put(met, p + 1),
        Control::To(to) => bits::put(met, to),
        Control::ToIf(_, _, to) => {
            let onto_next = bits::put(met, p + 1);
            bits::put(onto_next, to)
        }
    }
}

// Whether place p can be reached by moves from place 0, where `live` has the places to which walks from there lead.
fn is_live(live: u64, p: u8) -> bool
    ensures { IsTrue result ↔ LiveBy live p }
{
    p == 0 || bits::has(live, p)
}

// A thread of an accepted job, by its number.
#[derive(Clone, Copy)]
struct Thread<'a> {
    job: &'a Job<'a>,
    number: u8,
}

impl<'a> Thread<'a> {
    fn length(&self) -> u8
        ensures { result ≡ length (code self.now) }
    {
        self.job.code_length(self.number)
    }

    // What the instruction at place p is to the check; past the thread's end there is none.
    fn role_at(&self, p: u8) -> Role
        ensures { result ≡ rules.role_at (code self.now) p }
    {
        match self.job.instruction_at(self.number, p) {
            Some(i) => kinds::role_of(i),
            None => Role::Other,
        }
    }

    // One look at place p.
    fn onward_from(&self, walks: Walks, p: u8, met: u64) -> u64
        requires { p < 255 }
        ensures { Grown walks.by (code self.now) walks.first (λ q. q ≡ p) met result }
    {
        match self.job.instruction_at(self.number, p) {
            Some(i) if goes_on(walks, met, p, kinds::role_of(i)) => {
                with_successors(met, p, kinds::control_of(i))
            }
            _ => met,
        }
    }

    // One look at each place of the thread.
    fn look(&self, walks: Walks, earlier: u64) -> u64
        ensures { Grown walks.by (code self.now) walks.first (λ q. q < length (code self.now)) earlier result }
    {
        let mut met = earlier;
        for p in 0..self.length() {
            met = self.onward_from(walks, p, met);
        }
        met
    }

    // All places to which one of the walks leads: looks, until one finds nothing new.
    fn places_met(&self, walks: Walks) -> u64
        ensures { Met walks.by (code self.now) walks.first result }
    {
        let mut earlier: u64 = 0;
        let mut met = self.look(walks, 0);
        'looks: while earlier < met {
            earlier = met;
            met = self.look(walks, met);
        }
        met
    }

    // Whether a load stands at place p, and was met.
    fn is_met_load(&self, met: u64, p: u8) -> bool
        ensures { IsTrue result ↔ MetLoad (code self.now) met p }
    {
        matches!(self.role_at(p), Role::Loads) && bits::has(met, p)
    }

    // The least load among the places met.
    fn least_load(&self, met: u64) -> Option<u8>
        ensures { LeastBelow (MetLoad (code self.now) met) (length (code self.now)) result }
    {
        (0..self.length()).find(|p| self.is_met_load(met, *p))
    }

    // Whether a store that counts stands at place p.
    fn is_live_store(&self, live: u64, p: u8) -> bool
        ensures { IsTrue result ↔ LiveStore (code self.now) live p }
    {
        matches!(self.role_at(p), Role::Stores) && is_live(live, p)
    }

    // The least load that is open with the store place.
    fn open_load(&self, live: u64, store: u8) -> Option<u8>
        requires { FromPlaceZero (code self.now) live }
        ensures { LeastBelow (rules.OpenIn (code self.now) store) (length (code self.now)) result }
    {
        if !self.is_live_store(live, store) {
            return None;
        }
        let met = self.places_met(Walks {
            first: store,
            by: Passing::NoFence,
        });
        self.least_load(met)
    }

    // The least open pair of the thread: its store place and its load place.
    fn least_pair(&self) -> Option<(u8, u8)>
        ensures { PairMeans (code self.now) result }
    {
        let live = self.places_met(Walks {
            first: 0,
            by: Passing::Anything,
        });
        for store in 0..self.length() {
            if let Some(load) = self.open_load(live, store) {
                return Some((store, load));
            }
        }
        None
    }
}

// The fence check of an accepted job, thread by thread.
fn check_accepted(job: &Job) -> Answer
    ensures { FenceFor (job_of job.now.bytes.now).threads (answer_words result) }
{
    for number in 0..job.layout.threads {
        let thread = Thread { job: &*job, number }; // lent again for each thread
        if let Some((store, load)) = thread.least_pair() {
            return Answer::Open(number, store, load);
        }
    }
    Answer::Fenced
}

// The fence check: any bytes as a job, always an answer.
pub fn fences(job: &[u8]) -> Result<Answer, Fault>
    ensures { FencePromise job.now (words result) }
{
    let accepted = job::read(job)?;
    Ok(check_accepted(&accepted))
}
