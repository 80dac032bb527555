// A table of contexts, read and written part by part: by value, or where an image lies. The calls are written once, over either. Added; the Rust has no image.
#![tactic(auto)]

pub mod by_value;
pub mod in_place;

ghost use Rattle.std.specs.Prelude.{◌≡◌, ◌<◌, length};
ghost use Rattle.children.specs.Marks.{slot_count};
ghost use Rattle.context.specs.Context.{with_handle, with_children};
ghost use Rattle.table.specs.declared.state.State.{State};
ghost use Rattle.table.specs.State.{contexts_in, with_slot, with_initialized};

use context::{Context, ContextState, ContextType};

// What can be read. A slot is a plain number below slot_count: a type for it would be made at each loop and each mark, and taken apart at each array.
pub trait Slots {
    // The table that it is.
    ghost state: { Self → State };

    fn marker(&self) -> u32
        ensures { result ≡ (state self.now).marker };

    fn version(&self) -> u32
        ensures { result ≡ (state self.now).version };

    fn support(&self) -> u32
        ensures { result ≡ (state self.now).support };

    fn has_initialized(&self) -> u8
        ensures { result ≡ (state self.now).has_initialized };

    fn state_at(&self, i: usize) -> ContextState
        requires { i < slot_count }
        ensures { result ≡ (contexts_in (state self.now) i).state };

    fn context_type_at(&self, i: usize) -> ContextType
        requires { i < slot_count }
        ensures { result ≡ (contexts_in (state self.now) i).context_type };

    fn locality_at(&self, i: usize) -> u32
        requires { i < slot_count }
        ensures { result ≡ (contexts_in (state self.now) i).locality };

    fn parent_at(&self, i: usize) -> u8
        requires { i < slot_count }
        ensures { result ≡ (contexts_in (state self.now) i).parent_idx };

    fn children_at(&self, i: usize) -> u64
        requires { i < slot_count }
        ensures { result ≡ (contexts_in (state self.now) i).children };

    fn handle_at(&self, i: usize) -> [u8; handle::SIZE]
        requires { i < slot_count }
        ensures { result ≡ (contexts_in (state self.now) i).handle };

    fn context_at(&self, i: usize) -> Context
        requires { i < slot_count }
        ensures { result ≡ contexts_in (state self.now) i };
}

// What can be written; all else stays.
pub trait SlotsMut: Slots {
    // What has to hold where it is written, and holds afterwards: a table has all its slots; an image reads.
    ghost Reads: { Self → Type 0 };

    fn put_handle(&mut self, i: usize, handle: [u8; handle::SIZE])
        requires { Reads self.old × (i < slot_count) }
        ensures reads { Reads self.new }
        ensures state { Self.state self.new ≡ with_slot (Self.state self.old) i (with_handle (contexts_in (Self.state self.old) i) handle) };

    fn put_children(&mut self, i: usize, children: u64)
        requires { Reads self.old × (i < slot_count) }
        ensures reads { Reads self.new }
        ensures state { Self.state self.new ≡ with_slot (Self.state self.old) i (with_children (contexts_in (Self.state self.old) i) children) };

    fn put_context(&mut self, i: usize, c: Context)
        requires { Reads self.old × (i < slot_count) }
        ensures reads { Reads self.new }
        ensures state { Self.state self.new ≡ with_slot (Self.state self.old) i c };

    fn put_initialized(&mut self)
        requires { Reads self.old }
        ensures reads { Reads self.new }
        ensures state { Self.state self.new ≡ with_initialized (Self.state self.old) };

    ghost all_slots: { (s : Self) → Reads s → length (Self.state s).contexts ≡ slot_count };
}
