// Rotate the handle of a context. rotate_context.rs.
#![tactic(auto)]

ghost use Rattle.std.specs.Prelude.{◌≡◌, not, ◌&&◌, ◌||◌, ◌<◌, Ok};
ghost use Rattle.children.specs.Marks.{slot_count};
ghost use Rattle.handle.specs.Handle.{is_default};
ghost use Rattle.table.specs.State.{contexts_in};
ghost use Rattle.slots.specs.Ends.{Ends};
ghost use Rattle.lookup.specs.Lookup.{active_in};
ghost use Rattle.rotate_context.specs.Rotate.{occupied, rotated_at, rotated_of};

use children::MAX_HANDLES;
use error::DpeErrorCode;
use slots::{Slots, SlotsMut};
use table::state::{Outcome, State};
use table::{flags, support};

// Whether a slot keeps the locality from a new default: it is active there, and a default, or not the target.
fn occupies<T: Slots>(t: &T, i: usize, locality: u32, is_target: bool) -> bool
    requires { i < slot_count }
    ensures { result ≡ (active_in (contexts_in (T.state t.now)) locality i && (is_default (contexts_in (T.state t.now) i).handle || not is_target)) }
{
    let is_default = handle::is_default(t.handle_at(i));
    lookup::active_at(t, i, locality) & (is_default | !is_target)
}

// Whether the locality has an active default, the target included, or an active context other than the target.
#[tactic(auto, using(crate::proofs::Rotate::occupied_none, crate::proofs::Rotate::occupied_on))]
fn is_occupied<T: Slots>(t: &T, locality: u32, target_idx: usize) -> bool
    ensures { result ≡ occupied slot_count (contexts_in (T.state t.now)) locality target_idx }
{
    for j in 0..MAX_HANDLES {
        if occupies(t, j, locality, j == target_idx) {
            return true;
        }
    }
    false
}

// The new handle of slot i: the default one, where the locality has room for it, or a candidate.
fn new_handle<T: Slots>(
    t: &T,
    i: usize,
    locality: u32,
    flags: u32,
    candidates: &[u8],
) -> Result<[u8; handle::SIZE], DpeErrorCode>
    ensures { result ≡ (rotated_at (T.state t.now) locality flags candidates.now (Ok i)).answer }
{
    if !flags::has_bit(flags, flags::ROTATE_TARGET_IS_DEFAULT_BIT) {
        return candidates::generate_new_handle(t, candidates);
    }
    if is_occupied(t, locality, i) {
        return Err(DpeErrorCode::InvalidArgument);
    }
    Ok(handle::default())
}

// The context with the handle in the locality gets a new handle: the default one, or a candidate.
pub fn rotate_on<T: SlotsMut>(
    t: &mut T,
    handle: [u8; handle::SIZE],
    locality: u32,
    flags: u32,
    candidates: &[u8],
) -> Result<[u8; handle::SIZE], DpeErrorCode>
    requires { T.Reads t.old }
    ensures { Ends T.state T.Reads t.old t.new result (rotated_of (T.state t.old) handle locality flags candidates.now) }
{
    if !flags::has_bit(t.support(), support::ROTATE_CONTEXT_BIT) {
        return Err(DpeErrorCode::InvalidCommand);
    }
    let i = lookup::get_active_context_pos(t, handle, locality)?;
    let fresh = new_handle(t, i, locality, flags, candidates)?;
    t.put_handle(i, fresh);
    Ok(fresh)
}

// The same by value: the table in, and back, which is the form and the meaning of a call.
#[tactic(auto, using(table::proofs::Sizes::slots, slots::proofs::Ends::by_value))]
pub fn rotate_context(
    t: State,
    handle: [u8; handle::SIZE],
    locality: u32,
    flags: u32,
    candidates: &[u8],
) -> Outcome<[u8; handle::SIZE]>
    ensures { result ≡ rotated_of t handle locality flags candidates.now }
{
    let mut state = t;
    let answer = rotate_on(&mut state, handle, locality, flags, candidates);
    Outcome { answer, state }
}
