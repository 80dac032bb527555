// The path: the slots from a root down to a slot. `RootToChildIter` of context.rs.
// It reads slot by slot, and ends on every table.
#![tactic(auto)]

ghost use Rattle.std.specs.Prelude.{◌≡◌};
ghost use Rattle.children.specs.Marks.{slot_count};
ghost use Rattle.table.specs.State.{contexts_in};
ghost use Rattle.links.specs.Summary.{live_at, parent_at};
ghost use Rattle.walks_path.specs.Path.{parent_of, path_in};

use children::MAX_HANDLES;
use context::ROOT_INDEX;
use error::{DpeErrorCode, InternalErrorCode};
use slots::Slots;

// A path: how many slots it has, and the slots from the root on, 0 after the last. An array with its length: there is no heap, and C is given both.
#[derive(Clone, Copy)]
pub struct Path {
    pub length: usize,
    pub slots: [u8; MAX_HANDLES],
}

// The parent of a slot that may stand on a path; ROOT_INDEX where it has none, as the definition says.
fn parent_of<T: Slots>(t: &T, slot: usize) -> Result<usize, DpeErrorCode>
    ensures { let s = contexts_in (T.state t.now) in result ≡ parent_of slot_count (live_at s) (parent_at s) slot }
{
    if slot >= MAX_HANDLES {
        return Err(DpeErrorCode::InternalError(InternalErrorCode::ContextIndexOob));
    }
    if context::is_inactive(t.state_at(slot)) {
        return Err(DpeErrorCode::InvalidHandle);
    }
    let p = t.parent_at(slot);
    if p != ROOT_INDEX && usize::from(p) >= MAX_HANDLES {
        return Err(DpeErrorCode::InvalidHandle);
    }
    Ok(usize::from(p))
}

// The path from the root down to a slot. Each parent is read once: the slots are met from the slot itself on, and turned round at the root.
pub fn root_to_leaf<T: Slots>(t: &T, slot: usize) -> Result<Path, DpeErrorCode>
    ensures { result ≡ path_in slot_count (contexts_in (T.state t.now)) slot }
{
    let mut slots = [0u8; MAX_HANDLES];
    let mut x = slot;
    for j in 0..MAX_HANDLES {
        let p = parent_of(t, x)?;
        slots[j] = x as u8;
        if p == usize::from(ROOT_INDEX) {
            slots[..=j].reverse();
            return Ok(Path {
                length: j + 1,
                slots,
            });
        }
        x = p;
    }
    parent_of(t, x)?;
    Err(DpeErrorCode::InternalError(InternalErrorCode::TciNodeCountExceeded))
}
