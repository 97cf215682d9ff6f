// What an instruction does to registers, memory and its thread's buffer, and where its thread goes on.
ghost use Rattle.std.specs.Prelude.{◌≡◌, ◌+◌, ◌%◌, ◌<◌, true, Ok};
ghost use Rattle.rules.specs.Limits.{registers_each, most_variables, most_pending, values};
ghost use Rattle.rules.specs.State.{pending};
ghost use Rattle.rules.specs.Kinds.{wait_of};
ghost use Rattle.rules.specs.Step as rules;
ghost use Rattle.rules.specs.declared.Model.{Model};
ghost use Rattle.rules.specs.declared.Instr.TheVariants.{Add, Load, Xchg, Cmpx};
ghost use Rattle.state.specs.Held.{held};
ghost use Rattle.state.specs.Parts.{At, Runs, Holds};
ghost use Rattle.machine.specs.Operands.{SourceOk, ControlOk, InstrOk, GroupFits};

use rules::{BYTE_VALUES, Control, Instr, Model, Source, Width};
use state::State;

// The sum modulo the values of the width: in one byte 255 plus 1 is 0, in two 65,535 plus 1.
fn sum(w: Width, a: u16, k: u16) -> u16
    ensures { result ≡ (a + k) % values w }
{
    let wrapped = a.wrapping_add(k);
    match w {
        Width::One => wrapped % (BYTE_VALUES as u16),
        Width::Two => wrapped,
    }
}

// Register r becomes r + k.
#[tactic(auto, unfolding(rules::specs::Step::changed))]
fn add(x: State, t: u8, w: Width, r: u8, k: u16) -> State
    requires at { At x t }
    requires is_register { r < registers_each }
    ensures { (m : Model) → Holds result (rules.changed m t (Add w r k) (held x)) }
{
    let total = sum(w, x.register(t, r), k);
    x.with_register(t, r, total)
}

// Register r takes the newest pending store of the thread's own to v, else memory.
#[tactic(auto, unfolding(rules::specs::Step::changed))]
fn load(x: State, t: u8, r: u8, v: u8) -> State
    requires at { At x t }
    requires is_register { r < registers_each }
    requires is_variable { v < most_variables }
    ensures { (m : Model) → Holds result (rules.changed m t (Load r v) (held x)) }
{
    let k = x.buffer(t).newest(v, x.variable(v));
    x.with_register(t, r, k)
}

// What a store carries.
#[tactic(auto, unfolding(rules::specs::Step::carried))]
fn carried(x: State, t: u8, a: Source) -> u16
    requires at { At x t }
    requires source_ok { SourceOk a }
    ensures { result ≡ rules.carried t (held x) a }
{
    match a {
        Source::Register(r) => x.register(t, r),
        Source::Constant(k) => k,
    }
}

// A store of k to v, which has room: under SC straight to memory, under TSO behind the last, under PSO by its group and variable.
#[tactic(auto, unfolding(rules::specs::Step::stored))]
fn stored(m: Model, x: State, t: u8, v: u8, k: u16) -> State
    requires at { At x t }
    requires is_variable { v < most_variables }
    requires has_room { rules.has_room m most_pending (pending t (held x)) ≡ true }
    requires group_fits { GroupFits x t }
    ensures { Holds result (rules.stored m t v k (held x)) }
{
    match m {
        Model::Sc => x.with_variable(v, k),
        Model::Tso => {
            let more = x.buffer(t).with_last(v, k);
            x.with_buffer(t, more)
        }
        Model::Pso => {
            let sorted = x.buffer(t).with_sorted(v, k);
            x.with_buffer(t, sorted)
        }
    }
}

// Register r and memory's v change places.
#[tactic(auto, unfolding(rules::specs::Step::changed))]
fn xchg(x: State, t: u8, r: u8, v: u8) -> State
    requires at { At x t }
    requires is_register { r < registers_each }
    requires is_variable { v < most_variables }
    ensures { (m : Model) → Holds result (rules.changed m t (Xchg r v) (held x)) }
{
    let old = x.variable(v);
    let y = x.with_variable(v, x.register(t, r));
    y.with_register(t, r, old)
}

// Memory's v becomes k if it equals register r, and r takes the old value either way.
#[tactic(auto, unfolding(rules::specs::Step::changed))]
fn cmpx(x: State, t: u8, r: u8, v: u8, k: u16) -> State
    requires at { At x t }
    requires is_register { r < registers_each }
    requires is_variable { v < most_variables }
    ensures { (m : Model) → Holds result (rules.changed m t (Cmpx r v k) (held x)) }
{
    let old = x.variable(v);
    let own = x.register(t, r);
    let written = if old == own { x.with_variable(v, k) } else { x };
    written.with_register(t, r, old)
}

// A WFENCE: under PSO it stands after the newest store, under SC and TSO it does nothing.
#[tactic(auto, unfolding(rules::specs::Step::grouped))]
fn wfence(m: Model, x: State, t: u8) -> State
    requires { At x t }
    ensures { Holds result (rules.grouped m t (held x)) }
{
    match m {
        Model::Sc | Model::Tso => x,
        Model::Pso => {
            let marked = x.buffer(t).marked();
            x.with_buffer(t, marked)
        }
    }
}

// What instruction i of thread t changes.
#[tactic(auto, unfolding(rules::specs::Step::changed))]
pub fn changed(i: Instr, m: Model, x: State, t: u8) -> State
    requires at { At x t }
    requires instr_ok { InstrOk i }
    requires may_be_taken { rules.free m most_pending (wait_of i) (pending t (held x)) ≡ Ok tt }
    requires group_fits { GroupFits x t }
    ensures { Holds result (rules.changed m t i (held x)) }
{
    match i {
        Instr::Set(r, k) => x.with_register(t, r, k),
        Instr::Add(w, r, k) => add(x, t, w, r, k),
        Instr::Load(r, v) => load(x, t, r, v),
        Instr::Store(a, v) => stored(m, x, t, v, carried(x, t, a)),
        Instr::Xchg(r, v) => xchg(x, t, r, v),
        Instr::Cmpx(r, v, k) => cmpx(x, t, r, v, k),
        Instr::Wfence => wfence(m, x, t),
        Instr::Fence | Instr::Jeq(_, _, _) | Instr::Jmp(_) => x,
    }
}

// The place to which thread t goes on.
#[tactic(auto, unfolding(rules::specs::Step::place_after))]
pub fn place_after(c: Control, x: State, t: u8) -> u8
    requires runs { Runs x t }
    requires control_ok { ControlOk c }
    ensures { result ≡ rules.place_after t c (held x) }
{
    match c {
        Control::To(p) => p,
        Control::ToIf(r, k, p) if x.register(t, r) == k => p,
        Control::On | Control::ToIf(_, _, _) => x.place(t) + 1,
    }
}
