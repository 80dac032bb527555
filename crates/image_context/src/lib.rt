// One context of the state image, by the offsets of document 01: 144 bytes, and reading it. Added; the Rust has none.
#![tactic(auto)]

ghost use Rattle.std.specs.Prelude.{◌≡◌, length};
ghost use Rattle.image_kinds.specs.Kinds.{context_size};
ghost use Rattle.image_context.specs.Context.{state_of, type_of, decode_tci, decode_context};

use context::tci::TciNodeData;
use context::{Context, ContextState, ContextType};
use image_kinds::{CONTEXT_TYPE_AT, STATE_AT};

pub const SIZE: usize = 144;

// Where the fields of a context lie in it; image_kinds has the type and the state byte, 137 and 138.
pub const HANDLE_AT: usize = 0;

pub const TCI_TYPE_AT: usize = 16;

pub const TCI_CUMULATIVE_AT: usize = 20;

pub const TCI_CURRENT_AT: usize = 68;

pub const TCI_LOCALITY_AT: usize = 116;

pub const SVN_AT: usize = 120;

pub const CHILDREN_AT: usize = 124;

pub const LOCALITY_AT: usize = 132;

pub const PARENT_IDX_AT: usize = 136;

pub const INTERNAL_INFO_AT: usize = 139;

pub const INTERNAL_DICE_AT: usize = 140;

pub const ALLOW_X509_AT: usize = 141;

pub const ALLOW_EXPORT_CDI_AT: usize = 142;

pub const ALLOW_RECURSIVE_AT: usize = 143;

// The state that a byte says; only 0, 1 and 2 are ever asked for. Total, as the definition is: image_kinds refuses other bytes before. No From, which would have to stand in context.
#[tactic(auto, using(crate::proofs::Fields::state_rest), unfolding(crate::specs::Context::state_of))]
pub fn state_of(b: u8) -> ContextState
    ensures { result ≡ state_of b }
{
    match b {
        0 => ContextState::Inactive,
        1 => ContextState::Active,
        _ => ContextState::Retired,
    }
}

// The type that a byte says; only 0 and 1 are ever asked for. Total, as `state_of` is.
#[tactic(auto, using(crate::proofs::Fields::type_rest), unfolding(crate::specs::Context::type_of))]
pub fn type_of(b: u8) -> ContextType
    ensures { result ≡ type_of b }
{
    match b {
        0 => ContextType::Normal,
        _ => ContextType::Simulation,
    }
}

// The measurements of a context.
#[tactic(auto, unfolding(crate::specs::Context::decode_tci))]
fn read_tci(s: &[u8]) -> TciNodeData
    requires { length s.now ≡ context_size }
    ensures { result ≡ decode_tci s.now }
{
    let tci_type = wire::read_u32(s, TCI_TYPE_AT);
    let tci_cumulative = wire::read_array(s, TCI_CUMULATIVE_AT);
    let tci_current = wire::read_array(s, TCI_CURRENT_AT);
    let locality = wire::read_u32(s, TCI_LOCALITY_AT);
    let svn = wire::read_u32(s, SVN_AT);
    TciNodeData {
        tci_type,
        tci_cumulative,
        tci_current,
        locality,
        svn,
    }
}

// The context of these bytes, whatever its state and type bytes are.
#[tactic(auto, unfolding(crate::specs::Context::decode_context))]
pub fn read_context(s: &[u8]) -> Context
    requires { length s.now ≡ context_size }
    ensures { result ≡ decode_context s.now }
{
    let handle = wire::read_array(s, HANDLE_AT);
    let tci = read_tci(s);
    let children = wire::read_u64(s, CHILDREN_AT);
    let locality = wire::read_u32(s, LOCALITY_AT);
    let parent_idx = s[PARENT_IDX_AT];
    let context_type = type_of(s[CONTEXT_TYPE_AT]);
    let state = state_of(s[STATE_AT]);
    let uses_internal_input_info = s[INTERNAL_INFO_AT];
    let uses_internal_input_dice = s[INTERNAL_DICE_AT];
    let allow_x509 = s[ALLOW_X509_AT];
    let allow_export_cdi = s[ALLOW_EXPORT_CDI_AT];
    let allow_recursive = s[ALLOW_RECURSIVE_AT];
    Context {
        handle,
        tci,
        children,
        locality,
        parent_idx,
        context_type,
        state,
        uses_internal_input_info,
        uses_internal_input_dice,
        allow_x509,
        allow_export_cdi,
        allow_recursive,
    }
}
