// One context of the table: its types, and what is done to it. context.rs; the modules are its measurements (tci.rs) and boolean bytes.
#![tactic(auto)]

pub mod tci;
pub mod u8bool;

ghost use Rattle.std.specs.Prelude.{◌≡◌};
ghost use Rattle.children.specs.Marks.{slot_count};
ghost use Rattle.context.specs.Context.{new_context, active_context, destroyed, with_child_of, is_inactive, is_active, is_retired, same_state, is_normal};

use crate::tci::TciNodeData;
use error::{DpeErrorCode, InternalErrorCode};

// The parent of a context that has none.
pub const ROOT_INDEX: u8 = 0xff;

#[derive(Clone, Copy, Debug, PartialEq, Eq)]
pub enum ContextState {
    // Not in use.
    Inactive,
    // Ready to be used.
    Active,
    // A child was derived from it and it was not retained; it goes with its last child.
    Retired,
}

#[derive(Clone, Copy, Debug, PartialEq, Eq)]
pub enum ContextType {
    Normal,
    Simulation,
}

#[derive(Clone, Copy)]
pub struct Context {
    pub handle: [u8; handle::SIZE],
    pub tci: TciNodeData,
    // The slots that are children of this one, as marks.
    pub children: u64,
    pub locality: u32,
    // The slot of the parent, or ROOT_INDEX. A byte and no Option: an image may hold 32 to 254 here and keeps it (`read_write` of image).
    pub parent_idx: u8,
    pub context_type: ContextType,
    pub state: ContextState,
    // Bytes and no bools: an image may hold any byte here and keeps it (`read_write` of image).
    pub uses_internal_input_info: u8,
    pub uses_internal_input_dice: u8,
    pub allow_x509: u8,
    pub allow_export_cdi: u8,
    pub allow_recursive: u8,
}

#[derive(Clone, Copy)]
pub struct ActiveContextArgs {
    pub context_type: ContextType,
    pub locality: u32,
    pub handle: [u8; handle::SIZE],
    pub tci_type: u32,
    pub parent_idx: u8,
    pub allow_x509: bool,
    pub uses_internal_input_info: bool,
    pub uses_internal_input_dice: bool,
    pub allow_export_cdi: bool,
    pub svn: u32,
    pub allow_recursive: bool,
}

impl Context {
    // A new empty slot.
    pub fn new() -> Context
        ensures { result ≡ new_context }
    {
        let handle = handle::default();
        let tci = TciNodeData::new();
        Context {
            handle,
            tci,
            children: children::empty(),
            locality: 0,
            parent_idx: ROOT_INDEX,
            context_type: ContextType::Normal,
            state: ContextState::Inactive,
            uses_internal_input_info: 0,
            uses_internal_input_dice: 0,
            allow_x509: 0,
            allow_export_cdi: 1,
            allow_recursive: 0,
        }
    }

    // An active context. Nothing of what stood in the slot is left.
    pub fn activate(args: ActiveContextArgs) -> Context
        ensures { result ≡ active_context args }
    {
        let blank = TciNodeData::new();
        let tci = TciNodeData {
            tci_type: args.tci_type,
            locality: args.locality,
            svn: args.svn,
            ..blank
        };
        let handle = args.handle;
        let context_type = args.context_type;
        Context {
            handle,
            tci,
            children: children::empty(),
            locality: args.locality,
            parent_idx: args.parent_idx,
            context_type,
            state: ContextState::Active,
            uses_internal_input_info: u8bool::new(args.uses_internal_input_info),
            uses_internal_input_dice: u8bool::new(args.uses_internal_input_dice),
            allow_x509: u8bool::new(args.allow_x509),
            allow_export_cdi: u8bool::new(args.allow_export_cdi),
            allow_recursive: u8bool::new(args.allow_recursive),
        }
    }

    // The context cleared: an empty slot that keeps its type, with no export and the handle that is no one's.
    pub fn destroy(self) -> Context
        ensures { result ≡ destroyed self }
    {
        let empty = Context::new();
        let handle = handle::new_invalid();
        let context_type = self.context_type;
        Context {
            handle,
            context_type,
            allow_export_cdi: 0,
            ..empty
        }
    }

    // The marks of the context with one more. They are answered, and not stored.
    #[tactic(auto, unfolding(crate::specs::Context::with_child_of))]
    pub fn add_child(self, idx: usize) -> Result<u64, DpeErrorCode>
        ensures { result ≡ with_child_of slot_count self.children idx }
    {
        if idx >= children::MAX_HANDLES {
            return Err(DpeErrorCode::InternalError(InternalErrorCode::ChildIndexOob));
        }
        children::add_child(self.children, idx)
    }
}

pub fn is_inactive(s: ContextState) -> bool
    ensures { result ≡ is_inactive s }
{
    s == ContextState::Inactive
}

pub fn is_active(s: ContextState) -> bool
    ensures { result ≡ is_active s }
{
    s == ContextState::Active
}

pub fn is_retired(s: ContextState) -> bool
    ensures { result ≡ is_retired s }
{
    s == ContextState::Retired
}

// Whether two states are the same. A match and no ==: asked of every slot for one state, it becomes a comparison for that state alone.
pub fn same_state(a: ContextState, b: ContextState) -> bool
    ensures { result ≡ same_state a b }
{
    match a {
        ContextState::Inactive => is_inactive(b),
        ContextState::Active => is_active(b),
        ContextState::Retired => is_retired(b),
    }
}

pub fn is_normal(t: ContextType) -> bool
    ensures { result ≡ is_normal t }
{
    t == ContextType::Normal
}
