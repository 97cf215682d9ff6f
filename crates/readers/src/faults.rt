// The refusals of 01, and a fault: a refusal and the offset at which it is given.
ghost use Rattle.std.specs.Prelude.{◌≡◌, ◌++◌, ◌∷◌, decimal, Some};
ghost use Rattle.readers.specs.Refusals.{number_of};

use std::fmt;

// In the order of their numbers.
#[derive(Clone, Copy, PartialEq, Eq)]
pub enum Refusal {
    // "fewer than 3 bytes, more than 597, or length wrong"; request 2: "the longest file becomes 1,109 bytes"; request 10: "1,389 bytes where the
    // version byte is 3"
    LengthWrong,
    // "version not 1"; request 10: "refusal 2 now means none of the three"
    VersionWrong,
    // "model, C, T or V out of range"
    HeadOutOfRange,
    // "n above 32 (offset of n), or an instruction with a bad op, operand or zero byte"; request 2: "n = 65 is refusal 4"
    ThreadBad,
    // "flag not 0 or 1, K above 16, or a bad clause"; request 8: "K = 0 is refusal 5"
    GoalBad,
    // "a field, instruction or clause isn't wholly there, or bytes are left over"
    NotWhole,
    // "search only: no slot"
    NoSlots,
}

// The number by which a refusal is given.
impl From<Refusal> for u64 {
    ghost from_gives = { λ refusal number. number ≡ number_of refusal };

    fn from(refusal: Refusal) -> u64 {
        match refusal {
            Refusal::LengthWrong => 1,
            Refusal::VersionWrong => 2,
            Refusal::HeadOutOfRange => 3,
            Refusal::ThreadBad => 4,
            Refusal::GoalBad => 5,
            Refusal::NotWhole => 6,
            Refusal::NoSlots => 7,
        }
    }
}

// A refusal, and the offset at which it is given.
#[derive(Clone, Copy, PartialEq, Eq)]
pub struct Fault {
    pub refusal: Refusal,
    pub offset: usize,
}

impl Refusal {
    // The fault that it is at an offset.
    pub fn at(self, offset: usize) -> Fault
        ensures { result ≡ record { refusal = self; offset = offset } }
    {
        Fault {
            refusal: self,
            offset,
        }
    }
}

// As it is printed: the refusal's number, a blank, and the offset.
impl fmt::Display for Fault {
    ghost output = { λ fault. Some (decimal (number_of fault.refusal) ++ 32 ∷ decimal fault.offset) };

    fn fmt<W: fmt::Write>(&self, f: &mut fmt::Formatter<W>) -> fmt::Result {
        write!(f, "{} {}", u64::from(self.refusal), self.offset)
    }
}
