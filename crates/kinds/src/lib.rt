// What an instruction is to control, to its thread's buffer and to the fence check: a row for each operation.
#![tactic(auto)]

ghost use Rattle.std.specs.Prelude.{◌≡◌};
ghost use Rattle.rules.specs.Kinds as rules;

use rules::{Control, Instr, Role, Wait};

// Where it goes on.
#[tactic(auto, unfolding(rules::specs::Kinds::control_of))]
pub fn control_of(i: Instr) -> Control
    ensures { result ≡ rules.control_of i }
{
    match i {
        Instr::Set(_, _) => Control::On,
        Instr::Add(_, _, _) => Control::On,
        Instr::Load(_, _) => Control::On,
        Instr::Store(_, _) => Control::On,
        Instr::Fence => Control::On,
        Instr::Xchg(_, _) => Control::On,
        Instr::Jeq(r, p, k) => Control::ToIf(r, k, p),
        Instr::Jmp(p) => Control::To(p),
        Instr::Cmpx(_, _, _) => Control::On,
        Instr::Wfence => Control::On,
    }
}

// What it waits for.
#[tactic(auto, unfolding(rules::specs::Kinds::wait_of))]
pub fn wait_of(i: Instr) -> Wait
    ensures { result ≡ rules.wait_of i }
{
    match i {
        Instr::Set(_, _) => Wait::Never,
        Instr::Add(_, _, _) => Wait::Never,
        Instr::Load(_, _) => Wait::Never,
        Instr::Store(_, _) => Wait::ForRoom,
        Instr::Fence => Wait::UntilEmpty,
        Instr::Xchg(_, _) => Wait::UntilEmpty,
        Instr::Jeq(_, _, _) => Wait::Never,
        Instr::Jmp(_) => Wait::Never,
        Instr::Cmpx(_, _, _) => Wait::UntilEmpty,
        Instr::Wfence => Wait::Never,
    }
}

// What it is to the fence check.
#[tactic(auto, unfolding(rules::specs::Kinds::role_of))]
pub fn role_of(i: Instr) -> Role
    ensures { result ≡ rules.role_of i }
{
    match i {
        Instr::Set(_, _) => Role::Other,
        Instr::Add(_, _, _) => Role::Other,
        Instr::Load(_, _) => Role::Loads,
        Instr::Store(_, _) => Role::Stores,
        Instr::Fence => Role::Fences,
        Instr::Xchg(_, _) => Role::Fences,
        Instr::Jeq(_, _, _) => Role::Other,
        Instr::Jmp(_) => Role::Other,
        Instr::Cmpx(_, _, _) => Role::Fences,
        Instr::Wfence => Role::Other,
    }
}
