// Slots looked for in a table, and counted. state.rs.
ghost use Rattle.std.specs.Prelude.{◌≡◌};
ghost use Rattle.children.specs.Marks.{slot_count};
ghost use Rattle.table.specs.State.{contexts_in, count_in, free_in};

use children::MAX_HANDLES;
use context::ContextState;
use error::DpeErrorCode;
use slots::Slots;

// How many contexts are in a state.
#[tactic(auto, using(children::proofs::Below::count_hit, children::proofs::Below::count_miss, crate::proofs::Lookup::counts), unfolding(children::specs::Below::count))]
pub fn count_contexts<T: Slots>(t: &T, state: ContextState) -> usize
    ensures { result ≡ count_in slot_count (contexts_in (T.state t.now)) state }
{
    let mut found: usize = 0;
    for i in 0..MAX_HANDLES {
        if context::same_state(state, t.state_at(i)) {
            found += 1;
        }
    }
    found
}

// The lowest inactive slot.
#[tactic(auto, using(crate::proofs::Lookup::lows, children::proofs::Below::low_on, children::proofs::Below::low_end, table::proofs::Slots::free_none))]
pub fn get_next_inactive_context_pos<T: Slots>(t: &T) -> Result<usize, DpeErrorCode>
    ensures { result ≡ free_in slot_count (contexts_in (T.state t.now)) }
{
    for i in 0..MAX_HANDLES {
        if context::is_inactive(t.state_at(i)) {
            return Ok(i);
        }
    }
    Err(DpeErrorCode::MaxTcis)
}
