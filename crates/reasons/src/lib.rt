// Why a step is withheld: what a rule asks for, and the numbers of the reasons.
#![tactic(auto)]

ghost use Rattle.std.specs.Prelude.{◌≡◌};
ghost use Rattle.rules.specs.Step as rules;
ghost use Rattle.rules.specs.Reasons.{number_of};

use rules::Reason;

// A rule asks for this, else it withholds the step for that reason.
pub fn needs(test: bool, why: Reason) -> Result<(), Reason>
    ensures { result ≡ rules.needs test why }
{
    if test { Ok(()) } else { Err(why) }
}

// The number by which a reason is given.
pub fn number_of(why: Reason) -> u64
    ensures { result ≡ number_of why }
{
    match why {
        Reason::NoSuchStep => 1,
        Reason::ThreadEnded => 2,
        Reason::BufferFull => 3,
        Reason::BufferNotEmpty => 4,
        Reason::NothingToFlush => 5,
        Reason::NotTheOldest => 6,
    }
}
