// All that is below a slot, read slot by slot. `get_descendants` of state.rs.
ghost use Rattle.std.specs.Prelude.{◌≡◌, ◌<◌};
ghost use Rattle.error.specs.declared.DpeErrorCode.TheVariants.{InvalidHandle};
ghost use Rattle.children.specs.Marks.{slot_count};
ghost use Rattle.forest.specs.Walk.{walk_down};
ghost use Rattle.links.specs.Summary.{live_at, kids_at};
ghost use Rattle.forest.specs.Told.{told_of};
ghost use Rattle.table.specs.State.{contexts_in};
ghost use Rattle.walks.specs.Walks.{descendants_in};

use children::MAX_HANDLES;
use error::{AddedErrorCode, DpeErrorCode, InternalErrorCode};
use slots::Slots;

// The stored marks of a slot, joined with the descendants of each child. `path` marks the slots on the way down to it; `depth` is how many more may come.
// The last child of a slot takes its place, so that only a child with another after it is a call.
pub fn descend<T: Slots>(t: &T, path: u64, slot: usize, depth: usize) -> Result<u64, DpeErrorCode>
    requires { slot < slot_count }
    ensures { let s = contexts_in (T.state t.now) in result ≡ told_of InvalidHandle (walk_down slot_count (live_at s) (kids_at s) depth path slot) }
{
    let mut found = children::empty();
    let mut down = path;
    let mut at = slot;
    let mut left = depth;
    // No `for`: how many more may come is part of the invariant, and falls with the slot.
    while left != 0 {
        if context::is_inactive(t.state_at(at)) {
            return Err(DpeErrorCode::InvalidHandle);
        }
        down = children::with(down, at);
        left -= 1;
        let kids = t.children_at(at);
        found = children::add_children(found, kids);
        let Some(mut k) = children::next(kids, 0) else {
            return Ok(found);
        };
        while let Some(after) = children::next(kids, k + 1) {
            if children::has_child(down, k) {
                return Err(DpeErrorCode::Added(AddedErrorCode::WalkLoops));
            }
            let m = descend(t, down, k, left)?;
            found = children::add_children(found, m);
            k = after;
        }
        if children::has_child(down, k) {
            return Err(DpeErrorCode::Added(AddedErrorCode::WalkLoops));
        }
        at = k;
    }
    Err(DpeErrorCode::Added(AddedErrorCode::WalkLoops))
}

// The descendants of a slot, as marks.
pub fn get_descendants<T: Slots>(t: &T, slot: usize) -> Result<u64, DpeErrorCode>
    ensures { result ≡ descendants_in slot_count (contexts_in (T.state t.now)) slot }
{
    if slot >= MAX_HANDLES {
        return Err(DpeErrorCode::InternalError(InternalErrorCode::ContextIndexOob));
    }
    descend(t, children::empty(), slot, MAX_HANDLES)
}
