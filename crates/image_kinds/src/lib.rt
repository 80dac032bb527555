// The state byte and the type byte of a context of the image, and what reading them answers. Added; the Rust has none.
#![tactic(auto)]

ghost use Rattle.std.specs.Prelude.{◌≡◌, ◌+◌, ◌≤◌, length, cond, ltb, Err};
ghost use Rattle.error.specs.Numbers.{done};
ghost use Rattle.error.specs.declared.DpeErrorCode.TheVariants.{Validation};
ghost use Rattle.wire.specs.Le.{part};
ghost use Rattle.image_kinds.specs.Kinds.{context_size, context_answer, kind_word, good_word};

use error::{DpeErrorCode, ValidationError};

// Where the two bytes lie in a context.
pub const CONTEXT_TYPE_AT: usize = 137;

pub const STATE_AT: usize = 138;

// Whether a byte says one of so many kinds.
fn kind_answer(b: u8, kinds: u8, refusal: ValidationError) -> Result<(), DpeErrorCode>
    ensures { result ≡ cond (ltb b kinds) done (Err (Validation refusal)) }
{
    if b < kinds {
        return Ok(());
    }
    Err(DpeErrorCode::Validation(refusal))
}

// What reading the context at `at` answers.
pub fn answer_at(image: &[u8], at: usize) -> Result<(), DpeErrorCode>
    requires { at + context_size ≤ length image.now }
    ensures { result ≡ context_answer (part at context_size image.now) }
{
    let s = kind_answer(image[at + STATE_AT], 3, ValidationError::BadContextState);
    let t = kind_answer(
        image[at + CONTEXT_TYPE_AT],
        2,
        ValidationError::BadContextType,
    );
    s.and(t)
}

// The type byte and the state byte of the context at `at` as one word, with one state more: a good context has less than four.
// A number and no Result: the quick test of reading joins 32 of them in one pass with no branch; `answer_at` is the plain form, and slower (docs/SPEED.md).
pub fn kind_at(image: &[u8], at: usize) -> u32
    requires { at + context_size ≤ length image.now }
    ensures { result ≡ kind_word (part at context_size image.now) }
{
    let context_type = u32::from(image[at + CONTEXT_TYPE_AT]);
    let state = u32::from(image[at + STATE_AT]);
    context_type + 256 * state + 256
}

// Whether the words of all contexts, joined, are those of good ones.
#[tactic(auto, unfolding(crate::specs::Kinds::good_word))]
pub fn are_good_kinds(word: u32) -> bool
    ensures { result ≡ good_word word }
{
    (word % 256 < 2) & (word < 1024)
}
