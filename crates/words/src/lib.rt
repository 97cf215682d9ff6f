// A value in two bytes, the higher first: request 10, "values big-endian".
#![tactic(auto)]

ghost use Rattle.std.specs.Prelude.{◌≡◌, ◌/◌, ◌%◌, ◌<◌};
ghost use Rattle.rules.specs.Limits.{byte_values};
ghost use Rattle.words.specs.Words.{word};

// The value that two bytes are.
pub fn word(high: u8, low: u8) -> u16
    ensures { result ≡ word high low }
{
    u16::from_be_bytes([high, low])
}

// The higher byte of a value.
pub fn high(k: u16) -> u8
    ensures { (result ≡ k / byte_values) × (result < byte_values) }
{
    k.to_be_bytes()[0]
}

// The lower byte of a value.
pub fn low(k: u16) -> u8
    ensures { (result ≡ k % byte_values) × (result < byte_values) }
{
    k.to_be_bytes()[1]
}
