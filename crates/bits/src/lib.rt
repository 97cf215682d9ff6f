// A set of numbers below 64 as one u64: bit s is set when s is in the set.
#![tactic(auto)]

ghost use Rattle.std.specs.Prelude.{◌≡◌, ◌+◌, eqb};
ghost use Rattle.std.specs.Iterator.{at_most};
ghost use Rattle.bits.specs.Bits.{bit_of, weight, count_of, Behind, Lowest, WithoutLowest, Counted, Put, Next};

// The numbers of a set that are still to come, from the lowest up, and how many they are: so many tries are left.
#[derive(Drop)]
pub struct Members {
    left: u64,
    tries: u32,
    ghost counted: { Counted left tries },
}

impl Iterator for Members {
    type Item = u8;

    ghost next_gives = { λ s r t. Next s.left r t.left };

    ghost remaining = { λ s. at_most (count_of s.left) };

    fn next(&mut self) -> Option<u8> {
        if self.tries == 0 {
            return None;
        }
        let s = lowest(self.left);
        self.left = without_lowest(self.left);
        self.tries -= 1;
        Some(s)
    }
}

// The numbers of the set, from the lowest up: as many as it has ones.
pub fn each(m: u64) -> Members
    ensures left { result.left ≡ m }
    ensures tries { Counted m result.tries }
{
    Members {
        left: m,
        tries: count(m),
    }
}

// The set with s, if on: so a loop from the lowest number up builds a set from its tests.
pub fn with_bit(m: u64, s: u8, on: bool) -> u64
    requires { Behind m s }
    ensures { result ≡ m + weight on s }
{
    if on { m | (1 << s) } else { m }
}

// Whether s is in the set; no number from 64 up is in any.
pub fn has(m: u64, s: u8) -> bool
    ensures { result ≡ eqb (bit_of m s) 1 }
{
    s < 64 && (m >> s) & 1 == 1
}

// The set with x in it too; from 64 up there is no place for x, and nothing changes.
pub fn put(m: u64, x: u8) -> u64
    ensures { Put m x result }
{
    if x < 64 { m | (1 << x) } else { m }
}

// The lowest number of the set, 64 where it is empty, as `Lowest` says.
pub fn lowest(m: u64) -> u8
    ensures { Lowest m result }
{
    m.trailing_zeros() as u8
}

// The set less its lowest number.
pub fn without_lowest(m: u64) -> u64
    ensures { WithoutLowest m result }
{
    m & m.wrapping_sub(1)
}

// How many numbers the set has.
pub fn count(m: u64) -> u32
    ensures { Counted m result }
{
    m.count_ones()
}
