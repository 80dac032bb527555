// Destroy: a context goes, with all that is below it and the retired run above it. destroy_context.rs.
#![tactic(auto)]

ghost use Rattle.std.specs.Prelude.{◌≡◌};
ghost use Rattle.children.specs.Marks.{slot_count};
ghost use Rattle.table.specs.State.{contexts_in};
ghost use Rattle.slots.specs.Ends.{Ends};
ghost use Rattle.destroy_context.specs.Destroy.{doomed_in, destroy_slot_of, destroy_of};

use children::MAX_HANDLES;
use error::{DpeErrorCode, InternalErrorCode};
use slots::{Slots, SlotsMut};
use table::state::{Outcome, State};
use walks::descendants;

// The slots that go with a slot, as marks: itself, all that is below it, and the run above it. The walk up comes first.
#[tactic(auto, using(error::proofs::Exits::passed_on), unfolding(crate::specs::Destroy::doomed_of, crate::specs::Destroy::on_run, crate::specs::Destroy::on_down))]
fn doomed<T: Slots>(t: &T, slot: usize) -> Result<u64, DpeErrorCode>
    ensures { result ≡ doomed_in slot_count (contexts_in (T.state t.now)) slot }
{
    if slot >= MAX_HANDLES {
        return Err(DpeErrorCode::InternalError(InternalErrorCode::ContextIndexOob));
    }
    let retired = walks_run::run_above(t, t.parent_at(slot))?;
    let down = descendants::descend(t, children::empty(), slot, MAX_HANDLES)?;
    let set = children::add_children(children::with(down, slot), retired);
    Ok(set)
}

// Destroys the context of a slot.
#[tactic(auto, using(crate::proofs::Calls::slot_cleared, slots::proofs::Ends::success))]
pub fn destroy_slot_on<T: SlotsMut>(t: &mut T, slot: usize) -> Result<(), DpeErrorCode>
    requires { T.Reads t.old }
    ensures { Ends T.state T.Reads t.old t.new result (destroy_slot_of (T.state t.old) slot) }
{
    let set = doomed(t, slot)?;
    clearing::clear(t, set);
    Ok(())
}

// Destroys the active context of a locality that has a handle.
#[tactic(auto, using(crate::proofs::Calls::found_at, slots::proofs::Ends::same))]
pub fn destroy_on<T: SlotsMut>(
    t: &mut T,
    handle: [u8; handle::SIZE],
    locality: u32,
) -> Result<(), DpeErrorCode>
    requires { T.Reads t.old }
    ensures { Ends T.state T.Reads t.old t.new result (destroy_of (T.state t.old) handle locality) }
{
    let slot = lookup::get_active_context_pos(t, handle, locality)?;
    destroy_slot_on(t, slot)
}

// The same by value, of a slot and by handle: the table in, and back.
#[tactic(auto, using(table::proofs::Sizes::slots, slots::proofs::Ends::by_value))]
pub fn destroy_slot(t: State, slot: usize) -> Outcome<()>
    ensures { result ≡ destroy_slot_of t slot }
{
    let mut state = t;
    let answer = destroy_slot_on(&mut state, slot);
    Outcome { answer, state }
}

#[tactic(auto, using(table::proofs::Sizes::slots, slots::proofs::Ends::by_value))]
pub fn destroy_context(t: State, handle: [u8; handle::SIZE], locality: u32) -> Outcome<()>
    ensures { result ≡ destroy_of t handle locality }
{
    let mut state = t;
    let answer = destroy_on(&mut state, handle, locality);
    Outcome { answer, state }
}
