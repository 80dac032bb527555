// A view of the lent image: the fields of a slot, read where they lie. No context is built.
// `fields_at` does the work on the slice; the functions over the struct only take it apart or make it.
#![tactic(auto)]

ghost use Rattle.std.specs.Prelude.{◌≡◌, ◌<◌, length};
ghost use Rattle.children.specs.Marks.{slot_count};
ghost use Rattle.image.specs.State.{state_size, slot_in};
ghost use Rattle.view.specs.View.{fields_of};

use context::{ContextState, ContextType};
use image::state;

// A lent image.
#[derive(Clone, Copy)]
pub struct View<'a> {
    pub image: &'a [u8],
}

// The fields of a slot that a listing shows.
#[derive(Clone, Copy)]
pub struct SlotFields {
    pub state: ContextState,
    pub context_type: ContextType,
    pub locality: u32,
    pub parent_idx: u8,
    pub children: u64,
}

// The work: the fields of a slot, read where they lie.
pub fn fields_at(image: &[u8], slot: usize) -> SlotFields
    requires { (length image.now ≡ state_size) × (slot < slot_count) }
    ensures { result ≡ fields_of (slot_in image.now slot) }
{
    let at = state::CONTEXTS_AT + image_context::SIZE * slot;
    let children = wire::read_u64(image, at + image_context::CHILDREN_AT);
    let locality = wire::read_u32(image, at + image_context::LOCALITY_AT);
    let parent_idx = image[at + image_context::PARENT_IDX_AT];
    let context_type = image_context::type_of(image[at + image_kinds::CONTEXT_TYPE_AT]);
    let state = image_context::state_of(image[at + image_kinds::STATE_AT]);
    SlotFields {
        state,
        context_type,
        locality,
        parent_idx,
        children,
    }
}

// The view of an image.
pub fn view_of<'a>(image: &'a [u8]) -> View<'a>
    ensures { result.image ≡ image.entry }
{
    View { image }
}

impl<'a> View<'a> {
    // The fields of a slot under the view.
    pub fn fields(self, slot: usize) -> SlotFields
        requires { (length self.image.now ≡ state_size) × (slot < slot_count) }
        ensures { result ≡ fields_of (slot_in self.entry.image.now slot) }
    {
        fields_at(self.image, slot)
    }
}

// The fields of a slot through a view, for whoever has the image.
pub fn slot_fields(image: &[u8], slot: usize) -> SlotFields
    requires { (length image.now ≡ state_size) × (slot < slot_count) }
    ensures { result ≡ fields_of (slot_in image.now slot) }
{
    view_of(image).fields(slot)
}
