// The bytes of an image, read and written where they lie.
ghost use Rattle.std.specs.Prelude.{◌≡◌, Err, MatchResult};
ghost use Rattle.error.specs.Numbers.{done};
ghost use Rattle.image.specs.State.{decode_state, readable_of};
ghost use Rattle.slots.specs.Image.{table_slots};

use crate::{Slots, SlotsMut};
use context::{Context, ContextState, ContextType, u8bool};
use error::DpeErrorCode;
use image::state;
use image::state::{CONTEXTS_AT, SIZE};

// The bytes of a whole image.
pub type Image = [u8; SIZE];

// The table of an image where it lies, or why the image does not read.
pub fn read(image: &[u8]) -> Result<&Image, DpeErrorCode>
    ensures { MatchResult result (λ t. (t.now ≡ image.now) × (readable_of image.now ≡ done)) (λ e. readable_of image.now ≡ Err e) }
{
    state::readable(image)?;
    Ok(image.first_chunk().unwrap())
}

impl Slots for Image {
    ghost state = { decode_state };

    #[tactic(auto, unfolding(image::specs::State::decode_state))]
    fn marker(&self) -> u32 {
        wire::read_u32(self, state::MARKER_AT)
    }

    #[tactic(auto, unfolding(image::specs::State::decode_state))]
    fn version(&self) -> u32 {
        wire::read_u32(self, state::VERSION_AT)
    }

    #[tactic(auto, unfolding(image::specs::State::decode_state))]
    fn support(&self) -> u32 {
        wire::read_u32(self, state::SUPPORT_AT)
    }

    #[tactic(auto, unfolding(image::specs::State::decode_state))]
    fn has_initialized(&self) -> u8 {
        self[state::HAS_INITIALIZED_AT]
    }

    #[tactic(auto, using(crate::proofs::Read::state_read))]
    fn state_at(&self, i: usize) -> ContextState {
        image_context::state_of(self[CONTEXTS_AT + image_context::SIZE * i + image_kinds::STATE_AT])
    }

    #[tactic(auto, using(crate::proofs::Read::type_read))]
    fn context_type_at(&self, i: usize) -> ContextType {
        let at = CONTEXTS_AT + image_context::SIZE * i;
        image_context::type_of(self[at + image_kinds::CONTEXT_TYPE_AT])
    }

    #[tactic(auto, using(crate::proofs::Read::locality_read))]
    fn locality_at(&self, i: usize) -> u32 {
        let at = CONTEXTS_AT + image_context::SIZE * i;
        wire::read_u32(self, at + image_context::LOCALITY_AT)
    }

    #[tactic(auto, using(crate::proofs::Read::parent_read))]
    fn parent_at(&self, i: usize) -> u8 {
        self[CONTEXTS_AT + image_context::SIZE * i + image_context::PARENT_IDX_AT]
    }

    #[tactic(auto, using(crate::proofs::Read::children_read))]
    fn children_at(&self, i: usize) -> u64 {
        let at = CONTEXTS_AT + image_context::SIZE * i;
        wire::read_u64(self, at + image_context::CHILDREN_AT)
    }

    #[tactic(auto, using(crate::proofs::Read::handle_read))]
    fn handle_at(&self, i: usize) -> [u8; handle::SIZE] {
        let at = CONTEXTS_AT + image_context::SIZE * i;
        wire::read_array(self, at + image_context::HANDLE_AT)
    }

    fn context_at(&self, i: usize) -> Context {
        let at = CONTEXTS_AT + image_context::SIZE * i;
        let end = at + image_context::SIZE;
        image_context::read_context(&self[at..end])
    }
}

impl SlotsMut for Image {
    ghost Reads = { λ l. readable_of l ≡ done };

    ghost all_slots = { table_slots };

    fn put_handle(&mut self, i: usize, handle: [u8; handle::SIZE]) {
        let at = CONTEXTS_AT + image_context::SIZE * i;
        wire::write_run(self, at + image_context::HANDLE_AT, &handle);
    }

    fn put_children(&mut self, i: usize, children: u64) {
        let at = CONTEXTS_AT + image_context::SIZE * i;
        wire::write_u64(self, at + image_context::CHILDREN_AT, children);
    }

    fn put_context(&mut self, i: usize, c: Context) {
        let at = CONTEXTS_AT + image_context::SIZE * i;
        let end = at + image_context::SIZE;
        image_write::write_context(&mut self[at..end], c);
    }

    fn put_initialized(&mut self) {
        self[state::HAS_INITIALIZED_AT] = u8bool::new(true);
    }
}
