// The tables of 01 and requests 7 and 10: how wide the values of a version are, what the bytes of an item are as an instruction, and what they are as a
// clause of a goal.
#![tactic(auto)]

ghost use Rattle.std.specs.Prelude.{◌≡◌, ◌&&◌, ltb, leb};
ghost use Rattle.rules.specs.Step.{given};
ghost use Rattle.rules.specs.Limits.{width_of};
ghost use Rattle.rules.specs.File.{zero_ok, instruction_of, clause_of};
ghost use Rattle.rules.specs.declared.Clause.TheVariants.{PlaceIs};
ghost use Rattle.tables.specs.Told.{told};

use rules::{Clause, Instr, REGISTERS_EACH, SECOND_VERSION, Source, THIRD_VERSION, Width};

// "Instructions are four bytes: op, a, b, c", and so are clauses; in version 3 "op, a, b, then k of two bytes".
#[derive(Clone, Copy)]
pub struct Item {
    pub op: u8,
    pub a: u8,
    pub b: u8,
    pub c: u16,
}

// How wide the values of a version are. A byte that is no version has the width of the first two.
pub fn width(version: u8) -> Width
    ensures { result ≡ width_of version }
{
    if version == THIRD_VERSION {
        Width::Two
    } else {
        Width::One
    }
}

// The instruction that the item's bytes are, if they are good. vars is V, n the length of the thread that it stands in. From version 2 on there are two
// operations more.
pub fn instruction(version: u8, vars: u8, n: u8, i: Item) -> Option<Instr>
    ensures { told result ≡ instruction_of version vars n i.op i.a i.b i.c }
{
    let Item { op, a, b, c } = i;
    match op {
        1 => ((a < REGISTERS_EACH) & (b == 0)).then_some(Instr::Set(a, c)),
        2 => ((a < REGISTERS_EACH) & (b == 0)).then_some(Instr::Add(width(version), a, c)),
        3 => ((a < REGISTERS_EACH) & (b < vars) & (c == 0)).then_some(Instr::Load(a, b)),
        4 => ((a < REGISTERS_EACH) & (b < vars) & (c == 0)).then_some(Instr::Store(
            Source::Register(a),
            b,
        )),
        5 => ((a == 0) & (b < vars)).then_some(Instr::Store(Source::Constant(c), b)),
        6 => ((a == 0) & (b == 0) & (c == 0)).then_some(Instr::Fence),
        7 => ((a < REGISTERS_EACH) & (b < vars) & (c == 0)).then_some(Instr::Xchg(a, b)),
        8 => ((a < REGISTERS_EACH) & (b <= n)).then_some(Instr::Jeq(a, b, c)),
        9 => ((a == 0) & (b <= n) & (c == 0)).then_some(Instr::Jmp(b)),
        10 => ((SECOND_VERSION <= version) & (a < REGISTERS_EACH) & (b < vars)).then_some(
            Instr::Cmpx(a, b, c),
        ),
        11 => ((SECOND_VERSION <= version) & (a == 0) & (b == 0) & (c == 0)).then_some(
            Instr::Wfence,
        ),
        0 | 12..=255 => None,
    }
}

// A clause of a place: one that the thread has is a byte.
fn place_clause(count: u8, n: u8, a: u8, b: u8, c: u16) -> Option<Clause>
    ensures { told result ≡ given (ltb a count && zero_ok b && leb c n) (PlaceIs a c) }
{
    if c <= u16::from(n) {
        let place = c as u8;
        ((a < count) & (b == 0)).then_some(Clause::PlaceIs(a, place))
    } else {
        None
    }
}

// The clause that the item's bytes are, if they are good. vars is V, count is T, n the length of thread a, if the job has it.
pub fn clause(vars: u8, count: u8, n: u8, i: Item) -> Option<Clause>
    ensures { told result ≡ clause_of vars count n i.op i.a i.b i.c }
{
    let Item { op, a, b, c } = i;
    match op {
        1 => place_clause(count, n, a, b, c),
        2 => ((a < count) & (b < REGISTERS_EACH)).then_some(Clause::RegisterIs(a, b, c)),
        3 => ((a < vars) & (b == 0)).then_some(Clause::MemoryIs(a, c)),
        0 | 4..=255 => None,
    }
}
