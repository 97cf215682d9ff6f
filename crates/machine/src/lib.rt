// The steps of the machine of 01: whether an instruction may be taken, what it does, and what a flush does.
#![tactic(auto)]

ghost use Rattle.std.specs.Prelude.{◌≡◌, ◌<◌, Ok};
ghost use Rattle.std.proofs.Math.Option.{some};
ghost use Rattle.rules.specs.Limits.{most_variables, most_pending};
ghost use Rattle.rules.specs.State.{pending};
ghost use Rattle.rules.specs.Kinds.{wait_of};
ghost use Rattle.rules.specs.Step as rules;
ghost use Rattle.buffer.specs.Held.{held_pending, BufferOk};
ghost use Rattle.state.specs.Held.{held};
ghost use Rattle.state.specs.Parts.{At, Runs, Holds};
ghost use Rattle.machine.specs.Operands.{InstrOk, GroupFits};

use buffer::Buf;
use rules::{Instr, Model, Reason};
use state::State;

mod effects;
mod waits;

// Whether instruction i of a thread whose buffer is b may be taken, and why not: no state is made.
#[tactic(auto, unfolding(rules::specs::Step::may_execute))]
pub fn may_execute(i: Instr, m: Model, capacity: u8, b: Buf) -> Result<(), Reason>
    requires { BufferOk b }
    ensures { result ≡ rules.may_execute m capacity (some i) (held_pending b) }
{
    waits::free(kinds::wait_of(i), m, capacity, b)
}

// Instruction i of thread t, which may be taken: what it changes, and the place where the thread goes on.
#[tactic(auto, unfolding(rules::specs::Step::executed))]
pub fn execute(i: Instr, m: Model, x: State, t: u8) -> State
    requires runs { Runs x t }
    requires instr_ok { InstrOk i }
    requires may_be_taken { rules.free m most_pending (wait_of i) (pending t (held x)) ≡ Ok tt }
    requires group_fits { GroupFits x t }
    ensures { Holds result (rules.executed m t i (held x)) }
{
    let place = effects::place_after(kinds::control_of(i), x, t);
    effects::changed(i, m, x, t).with_place(t, place)
}

// The oldest pending store of thread t to v goes to memory: whether it may is asked before.
#[tactic(auto, unfolding(rules::specs::Step::flushed))]
pub fn flush(x: State, t: u8, v: u8) -> State
    requires at { At x t }
    requires is_variable { v < most_variables }
    ensures { Holds result (rules.flushed t v (held x)) }
{
    let taken = x.buffer(t).take(v);
    let y = x.with_variable(v, taken.value);
    y.with_buffer(t, taken.rest)
}
