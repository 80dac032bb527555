// The run above a slot: the retired slots with one child each, upward without a break. destroy_context.rs.
// It reads slot by slot, and ends on every table.
#![tactic(auto)]

ghost use Rattle.std.specs.Prelude.{◌≡◌};
ghost use Rattle.children.specs.Marks.{slot_count};
ghost use Rattle.table.specs.State.{contexts_in};
ghost use Rattle.links.specs.Summary.{retired_at, parent_at, kids_at};
ghost use Rattle.walks_run.specs.Run.{run_from};

use children::MAX_HANDLES;
use context::ROOT_INDEX;
use error::{AddedErrorCode, DpeErrorCode, InternalErrorCode};
use slots::Slots;

// The run from the slot `start` upward, as marks.
pub fn run_above<T: Slots>(t: &T, start: u8) -> Result<u64, DpeErrorCode>
    ensures { let s = contexts_in (T.state t.now) in result ≡ run_from slot_count (retired_at s) (parent_at s) (kids_at s) start }
{
    let mut taken = children::empty();
    let mut p = start;
    for d in 0..MAX_HANDLES {
        let i = usize::from(p);
        if i >= MAX_HANDLES {
            if p == ROOT_INDEX {
                return Ok(taken);
            }
            return Err(DpeErrorCode::InternalError(InternalErrorCode::DestroyParentIndexOob));
        }
        if !context::is_retired(t.state_at(i)) {
            return Ok(taken);
        }
        if children::count(t.children_at(i)) != 1 {
            return Ok(taken);
        }
        taken = children::with(taken, i);
        p = t.parent_at(i);
    }
    Err(DpeErrorCode::Added(AddedErrorCode::WalkLoops))
}
