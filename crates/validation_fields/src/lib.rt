// The validator's tests of what one context holds by itself. validation.rs.
#![tactic(auto)]

ghost use Rattle.std.specs.Prelude.{◌≡◌};
ghost use Rattle.verdict.specs.Tests.{support_of, is_zero_tci, inactive_of};

use context::tci::TciNodeData;
use context::{Context, u8bool};
use error::ValidationError;
use table::{flags, support};

// What a context uses against the support word.
#[tactic(auto, unfolding(verdict::specs::Tests::support_of, verdict::specs::Tests::first, verdict::specs::Tests::need))]
pub fn support_test(c: Context, word: u32) -> Result<(), ValidationError>
    ensures { result ≡ support_of word c }
{
    let k = c.context_type;
    if !context::is_normal(k) & !flags::has_bit(word, support::SIMULATION_BIT) {
        return Err(ValidationError::SimulationNotSupported);
    }
    if u8bool::get(c.uses_internal_input_dice) & !flags::has_bit(word, support::INTERNAL_DICE_BIT) {
        return Err(ValidationError::InternalDiceNotSupported);
    }
    if u8bool::get(c.uses_internal_input_info) & !flags::has_bit(word, support::INTERNAL_INFO_BIT) {
        return Err(ValidationError::InternalInfoNotSupported);
    }
    if (c.parent_idx != context::ROOT_INDEX)
        & (u8bool::get(c.allow_x509) & !flags::has_bit(word, support::X509_BIT))
    {
        return Err(ValidationError::AllowX509NotSupported);
    }
    Ok(())
}

// Whether nothing was measured.
fn is_zero_tci(d: TciNodeData) -> bool
    ensures { result ≡ is_zero_tci d }
{
    d == TciNodeData::new()
}

// A context that is not in use.
#[tactic(auto, unfolding(verdict::specs::Tests::inactive_of, verdict::specs::Tests::first, verdict::specs::Tests::need))]
pub fn inactive_test(c: Context) -> Result<(), ValidationError>
    ensures { result ≡ inactive_of c }
{
    if c.parent_idx != context::ROOT_INDEX {
        return Err(ValidationError::InactiveContextInvalidParent);
    }
    if children::has_children(c.children) {
        return Err(ValidationError::InactiveContextWithChildren);
    }
    let d = c.tci;
    if !is_zero_tci(d) {
        return Err(ValidationError::InactiveContextWithMeasurement);
    }
    if u8bool::get(c.uses_internal_input_dice)
        | u8bool::get(c.allow_x509)
        | u8bool::get(c.uses_internal_input_info)
    {
        return Err(ValidationError::InactiveContextWithFlagSet);
    }
    Ok(())
}
