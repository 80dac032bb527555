// The table of an image, read and written whole, by value. Added; the Rust has none.
#![tactic(auto)]

ghost use Rattle.std.specs.Prelude.{◌≡◌, length};
ghost use Rattle.children.specs.Below.{list_of};
ghost use Rattle.children.specs.Marks.{slot_count};
ghost use Rattle.wire.specs.Le.{put};
ghost use Rattle.image.specs.State.{contexts_at, state_size, slot_in, decode_state, read_state, encode_slots, write_answer, written};

use children::MAX_HANDLES;
use context::Context;
use error::{AddedErrorCode, DpeErrorCode};
use image::state;
use table::state::State;

// The contexts of an image.
fn read_contexts(image: &[u8]) -> [Context; MAX_HANDLES]
    requires { length image.now ≡ state_size }
    ensures { result ≡ list_of (slot_in image.now) slot_count }
{
    let mut contexts = [Context::new(); MAX_HANDLES];
    for i in 0..MAX_HANDLES {
        let a = state::CONTEXTS_AT + image_context::SIZE * i;
        let e = a + image_context::SIZE;
        let c = image_context::read_context(&image[a..e]);
        contexts[i] = c;
    }
    contexts
}

// The table of an image.
fn read_whole(image: &[u8]) -> State
    requires { length image.now ≡ state_size }
    ensures { result ≡ decode_state image.now }
{
    let marker = wire::read_u32(image, state::MARKER_AT);
    let version = wire::read_u32(image, state::VERSION_AT);
    let contexts = read_contexts(image);
    let support = wire::read_u32(image, state::SUPPORT_AT);
    let flags = wire::read_u16(image, state::FLAGS_AT);
    let has_initialized = image[state::HAS_INITIALIZED_AT];
    let reserved = image[state::RESERVED_AT];
    State {
        marker,
        version,
        contexts,
        support,
        flags,
        has_initialized,
        reserved,
    }
}

// The table of an image, or the first refusal.
pub fn read_state(image: &[u8]) -> Result<State, DpeErrorCode>
    ensures { result ≡ read_state image.now }
{
    state::readable(image)?;
    Ok(read_whole(image))
}

// The contexts, each into its own part of the buffer.
fn write_contexts(state: State, out: &mut [u8])
    requires { length out.old ≡ state_size }
    ensures { out.new ≡ put contexts_at (encode_slots state.contexts) out.old }
{
    for i in 0..MAX_HANDLES {
        let a = state::CONTEXTS_AT + image_context::SIZE * i;
        let e = a + image_context::SIZE;
        let c = state.contexts[i];
        image_write::write_context(&mut out[a..e], c);
    }
}

// The table into the buffer, which has to be as long as an image: else nothing is written.
pub fn write_state(state: State, out: &mut [u8]) -> Result<(), DpeErrorCode>
    ensures value { result ≡ write_answer out.old }
    ensures out_after { out.new ≡ written state out.old }
{
    if out.len() != state::SIZE {
        return Err(DpeErrorCode::Added(AddedErrorCode::BadLength));
    }
    wire::write_u32(out, state::MARKER_AT, state.marker);
    wire::write_u32(out, state::VERSION_AT, state.version);
    write_contexts(state, out);
    wire::write_u32(out, state::SUPPORT_AT, state.support);
    wire::write_u16(out, state::FLAGS_AT, state.flags);
    out[state::HAS_INITIALIZED_AT] = state.has_initialized;
    out[state::RESERVED_AT] = state.reserved;
    Ok(())
}
