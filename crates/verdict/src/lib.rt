// What the validator must answer: the tests of a table in their order, the forest rule, and that the two agree. The code is its answer alone.
#![tactic(auto)]

ghost use Rattle.std.specs.Prelude.{◌≡◌};
ghost use Rattle.verdict.specs.Tests.{outcome_of};

use error::{DpeErrorCode, ValidationError};

// How a call ends that answers the verdict.
pub fn outcome(v: Result<(), ValidationError>) -> Result<(), DpeErrorCode>
    ensures { result ≡ outcome_of v }
{
    Ok(v?)
}
