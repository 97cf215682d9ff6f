// What an instruction waits for in its thread's own buffer.
ghost use Rattle.std.specs.Prelude.{◌≡◌};
ghost use Rattle.rules.specs.Step as rules;
ghost use Rattle.buffer.specs.Held.{held_pending, BufferOk};

use buffer::Buf;
use rules::{Model, Reason, Wait};

// Whether there is room for one store more: under SC it goes straight to memory.
#[tactic(auto, unfolding(rules::specs::Step::has_room))]
fn has_room(m: Model, capacity: u8, b: Buf) -> bool
    requires { BufferOk b }
    ensures { result ≡ rules.has_room m capacity (held_pending b) }
{
    match m {
        Model::Sc => true,
        Model::Tso | Model::Pso => b.pending() < capacity,
    }
}

// Whether what is waited for is there, and what is missing if not.
#[tactic(auto, unfolding(rules::specs::Step::free))]
pub fn free(w: Wait, m: Model, capacity: u8, b: Buf) -> Result<(), Reason>
    requires { BufferOk b }
    ensures { result ≡ rules.free m capacity w (held_pending b) }
{
    match w {
        Wait::Never => Ok(()),
        Wait::ForRoom => reasons::needs(has_room(m, capacity, b), Reason::BufferFull),
        Wait::UntilEmpty => reasons::needs(b.is_empty(), Reason::BufferNotEmpty),
    }
}
