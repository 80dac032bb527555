// How an exported call tells its answer: a word, and what goes into a lent place. A refusal leaves the place as it was. Added; the Rust has none.
#![tactic(auto)]

ghost use Rattle.std.specs.Prelude.{◌≡◌, Err};
ghost use Rattle.std.specs.Result.{result_unwrap_or};
ghost use Rattle.error.specs.Numbers.{word_of};

use error::DpeErrorCode;

// The word of a refusal.
pub fn refused(e: DpeErrorCode) -> u64
    ensures { result ≡ word_of {A = Unit {0}} (Err e) }
{
    error::word(Err(e))
}

// Puts what a call found into its lent place, and answers 0; or the word of its refusal.
pub fn found<T: Copy>(answer: Result<T, DpeErrorCode>, place: &mut T) -> u64
    ensures value { result ≡ word_of answer }
    ensures place_after { place.new ≡ result_unwrap_or answer place.old }
{
    match answer {
        Ok(x) => {
            *place = x;
            0
        }
        Err(e) => refused(e),
    }
}

// The same for a number of slots, into a place that is 64 bits wide, as C has it.
pub fn number(answer: Result<usize, DpeErrorCode>, place: &mut u64) -> u64
    ensures value { result ≡ word_of answer }
    ensures place_after { place.new ≡ result_unwrap_or answer place.old }
{
    found(answer.map(|n| n as u64), place)
}
