// A table by value.
ghost use Rattle.std.specs.Prelude.{◌≡◌, length};
ghost use Rattle.children.specs.Marks.{slot_count};

use crate::{Slots, SlotsMut};
use context::{Context, ContextState, ContextType, u8bool};
use table::state::State;

impl Slots for State {
    ghost state = { λ t. t };

    fn marker(&self) -> u32 {
        self.marker
    }

    fn version(&self) -> u32 {
        self.version
    }

    fn support(&self) -> u32 {
        self.support
    }

    fn has_initialized(&self) -> u8 {
        self.has_initialized
    }

    fn state_at(&self, i: usize) -> ContextState {
        self.contexts[i].state
    }

    fn context_type_at(&self, i: usize) -> ContextType {
        self.contexts[i].context_type
    }

    fn locality_at(&self, i: usize) -> u32 {
        self.contexts[i].locality
    }

    fn parent_at(&self, i: usize) -> u8 {
        self.contexts[i].parent_idx
    }

    fn children_at(&self, i: usize) -> u64 {
        self.contexts[i].children
    }

    fn handle_at(&self, i: usize) -> [u8; handle::SIZE] {
        self.contexts[i].handle
    }

    fn context_at(&self, i: usize) -> Context {
        self.contexts[i]
    }
}

impl SlotsMut for State {
    ghost Reads = { λ t. length t.contexts ≡ slot_count };

    ghost all_slots = { λ t h. h };

    fn put_handle(&mut self, i: usize, handle: [u8; handle::SIZE]) {
        self.contexts[i].handle = handle;
    }

    fn put_children(&mut self, i: usize, children: u64) {
        self.contexts[i].children = children;
    }

    fn put_context(&mut self, i: usize, c: Context) {
        self.contexts[i] = c;
    }

    fn put_initialized(&mut self) {
        self.has_initialized = u8bool::new(true);
    }
}
