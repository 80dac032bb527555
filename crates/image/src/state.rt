// The whole state image.
ghost use Rattle.std.specs.Prelude.{◌≡◌, length};
ghost use Rattle.children.specs.Below.{every};
ghost use Rattle.children.specs.Marks.{slot_count};
ghost use Rattle.image.specs.State.{state_size, good_slot, is_readable, readable_of};

use children::MAX_HANDLES;
use error::{AddedErrorCode, DpeErrorCode};
use table::state::State;

// Where the fields of a state lie in it; the contexts stand one after the other, and four more fields follow them.
pub const MARKER_AT: usize = 0;

pub const VERSION_AT: usize = 4;

pub const CONTEXTS_AT: usize = 8;

pub const SUPPORT_AT: usize = CONTEXTS_AT + image_context::SIZE * MAX_HANDLES;

pub const FLAGS_AT: usize = SUPPORT_AT + 4;

pub const HAS_INITIALIZED_AT: usize = SUPPORT_AT + 6;

pub const RESERVED_AT: usize = SUPPORT_AT + 7;

pub const SIZE: usize = SUPPORT_AT + 8;

// Whether every slot is good: their words are joined in one pass with no branch, and looked at together.
fn are_good(image: &[u8]) -> bool
    requires { length image.now ≡ state_size }
    ensures { result ≡ every (good_slot image.now) slot_count }
{
    let mut kinds: u32 = 0;
    for i in 0..MAX_HANDLES {
        kinds = kinds | image_kinds::kind_at(image, CONTEXTS_AT + image_context::SIZE * i);
    }
    image_kinds::are_good_kinds(kinds)
}

// Whether the image reads.
#[tactic(auto, using(crate::proofs::Reading::is_whole, crate::proofs::Reading::is_short))]
#[inline(never)]
pub fn is_readable(image: &[u8]) -> bool
    ensures { result ≡ is_readable image.now }
{
    if image.len() == SIZE {
        return are_good(image);
    }
    false
}

// The first refusal of an image, slot by slot.
#[tactic(auto, using(crate::proofs::Reading::read_short, crate::proofs::Reading::slots_on), unfolding(crate::specs::State::slots_answer))]
#[cold]
fn first_refusal(image: &[u8]) -> Result<(), DpeErrorCode>
    ensures { result ≡ readable_of image.now }
{
    if image.len() != SIZE {
        return Err(DpeErrorCode::Added(AddedErrorCode::BadLength));
    }
    for slot in 0..MAX_HANDLES {
        image_kinds::answer_at(image, CONTEXTS_AT + image_context::SIZE * slot)?;
    }
    Ok(())
}

// What reading the image answers; nothing is built. The quick test comes first, and why an image does not read is looked for after it.
#[tactic(auto, using(crate::proofs::Reading::readable_done))]
#[inline(always)]
pub fn readable(image: &[u8]) -> Result<(), DpeErrorCode>
    ensures { result ≡ readable_of image.now }
{
    if is_readable(image) {
        return Ok(());
    }
    first_refusal(image)
}
