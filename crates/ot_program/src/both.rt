ghost use Rattle.std.specs.Prelude.{◌≡◌};
ghost use Rattle.ot_program.specs.walk.Reading.{both_of};
ghost use Rattle.ot_program.specs.walk.Returned.{join};

use crate::fault::{ProgramFault, Refusal};

/// Two parts of one statement, or the fault of the two that is told.
pub(crate) fn both<A: Drop, B: Drop>(
    one: Result<A, Refusal>,
    two: Result<B, Refusal>,
) -> Result<(A, B), Refusal>
    ensures { result ≡ both_of one two }
{
    match (one, two) {
        (Ok(one), Ok(two)) => Ok((one, two)),
        (Ok(_), Err(two)) => Err(two),
        (Err(one), Ok(_)) => Err(one),
        (Err(one), Err(two)) => Err(one.first(two)),
    }
}

/// The same of parts that take memory. Want of it is told before each refusal.
pub(crate) fn join<A: Drop, B: Drop>(
    one: Result<A, ProgramFault>,
    two: Result<B, ProgramFault>,
) -> Result<(A, B), ProgramFault>
    ensures { result ≡ join one two }
{
    match (one, two) {
        (Ok(one), Ok(two)) => Ok((one, two)),
        (Ok(_), Err(two)) => Err(two),
        (Err(one), Ok(_)) => Err(one),
        (Err(ProgramFault::Refused(one)), Err(ProgramFault::Refused(two))) => {
            Err(ProgramFault::Refused(one.first(two)))
        }
        (Err(_), Err(_)) => Err(ProgramFault::Memory),
    }
}
