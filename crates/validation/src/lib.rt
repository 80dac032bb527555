// The validator of the context table, by value or where an image lies: its tests in order. validation.rs.
#![tactic(auto)]

ghost use Rattle.std.specs.Prelude.{◌≡◌};
ghost use Rattle.verdict.specs.Tests.{verdict_of};
ghost use Rattle.validation.specs.Validate.{validate_at};

use error::{DpeErrorCode, ValidationError};
use slots::{Slots, in_place};
use table::state;

// The verdict on a table: yes, or the first test that fails.
#[tactic(auto, using(validation_slots::proofs::Agree::slots_by, validation_localities::proofs::Agree::places_by, validation_trees::proofs::Agree::forest_by), unfolding(verdict::specs::Tests::verdict, verdict::specs::Tests::first, verdict::specs::Tests::need))]
pub fn validate_dpe<T: Slots>(t: &T) -> Result<(), ValidationError>
    ensures { result ≡ verdict_of (T.state t.now) }
{
    if t.marker() != state::MAGIC {
        return Err(ValidationError::InvalidMarker);
    }
    if t.version() != state::VERSION {
        return Err(ValidationError::VersionMismatch);
    }
    let l = links::links_of(t);
    validation_slots::slots_test(t, &l)?;
    let p = validation_localities::places_of(t);
    validation_localities::localities_test(&p)?;
    validation_trees::trees_test(&l)
}

// What validating an image answers: why it does not read, or the verdict on its table.
pub fn validate_image(image: &[u8]) -> Result<(), DpeErrorCode>
    ensures { result ≡ validate_at image.now }
{
    let table = in_place::read(image)?;
    verdict::outcome(validate_dpe(table))
}
