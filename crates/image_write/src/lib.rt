// A context written into its 144 bytes of the state image. Added; the Rust has none.
#![tactic(auto)]

ghost use Rattle.std.specs.Prelude.{◌≡◌, length};
ghost use Rattle.wire.specs.Le.{put};
ghost use Rattle.image_kinds.specs.Kinds.{context_size};
ghost use Rattle.image_context.specs.Context.{state_byte, type_byte, encode_tci, encode_last, encode_context};

use context::tci::TciNodeData;
use context::{Context, ContextState, ContextType};
use image_context::{
    ALLOW_EXPORT_CDI_AT, ALLOW_RECURSIVE_AT, ALLOW_X509_AT, CHILDREN_AT, HANDLE_AT,
    INTERNAL_DICE_AT, INTERNAL_INFO_AT, LOCALITY_AT, PARENT_IDX_AT, SVN_AT, TCI_CUMULATIVE_AT,
    TCI_CURRENT_AT, TCI_LOCALITY_AT, TCI_TYPE_AT,
};
use image_kinds::{CONTEXT_TYPE_AT, STATE_AT};

// The byte of a state.
pub fn state_byte(s: ContextState) -> u8
    ensures { result ≡ state_byte s }
{
    s as u8
}

// The byte of a type.
pub fn type_byte(t: ContextType) -> u8
    ensures { result ≡ type_byte t }
{
    t as u8
}

// The measurements into their place in a context.
fn write_tci(out: &mut [u8], t: TciNodeData)
    requires { length out.old ≡ context_size }
    ensures { out.new ≡ put 16 (encode_tci t) out.old }
{
    wire::write_u32(out, TCI_TYPE_AT, t.tci_type);
    let cumulative = t.tci_cumulative;
    wire::write_run(out, TCI_CUMULATIVE_AT, &cumulative);
    let current = t.tci_current;
    wire::write_run(out, TCI_CURRENT_AT, &current);
    wire::write_u32(out, TCI_LOCALITY_AT, t.locality);
    wire::write_u32(out, SVN_AT, t.svn);
}

// The eight single bytes at the end of a context.
fn write_last(out: &mut [u8], c: Context)
    requires { length out.old ≡ context_size }
    ensures { out.new ≡ put 136 (encode_last c) out.old }
{
    let context_type = c.context_type;
    let t = type_byte(context_type);
    let state = c.state;
    let s = state_byte(state);
    out[PARENT_IDX_AT] = c.parent_idx;
    out[CONTEXT_TYPE_AT] = t;
    out[STATE_AT] = s;
    out[INTERNAL_INFO_AT] = c.uses_internal_input_info;
    out[INTERNAL_DICE_AT] = c.uses_internal_input_dice;
    out[ALLOW_X509_AT] = c.allow_x509;
    out[ALLOW_EXPORT_CDI_AT] = c.allow_export_cdi;
    out[ALLOW_RECURSIVE_AT] = c.allow_recursive;
}

// A context into the bytes of one.
pub fn write_context(out: &mut [u8], c: Context)
    requires { length out.old ≡ context_size }
    ensures { out.new ≡ encode_context c }
{
    let handle = c.handle;
    wire::write_run(out, HANDLE_AT, &handle);
    let tci = c.tci;
    write_tci(out, tci);
    wire::write_u64(out, CHILDREN_AT, c.children);
    wire::write_u32(out, LOCALITY_AT, c.locality);
    write_last(out, c);
}
