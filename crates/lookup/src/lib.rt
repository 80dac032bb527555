// The lookup of an active context by handle and locality. `get_active_context_pos` of state.rs.
#![tactic(auto)]

pub mod find;

ghost use Rattle.std.specs.Prelude.{◌≡◌, ◌<◌, ◌&&◌, eqb};
ghost use Rattle.children.specs.Marks.{slot_count};
ghost use Rattle.context.specs.Context.{is_active};
ghost use Rattle.table.specs.State.{contexts_in};
ghost use Rattle.lookup.specs.Lookup.{active_of, active_in, lookup_in};

use children::MAX_HANDLES;
use context::{Context, ContextState};
use error::DpeErrorCode;
use slots::Slots;

// Whether what is in a state and of a locality is active, and of the one that is asked for.
fn is_active_in(own: u32, state: ContextState, locality: u32) -> bool
    ensures { result ≡ (is_active state && eqb own locality) }
{
    // The locality first: fewer slots are of it than are active.
    (own == locality) & context::is_active(state)
}

// Whether a context is active, and of the locality.
pub fn active_in(c: Context, locality: u32) -> bool
    ensures { result ≡ active_of c locality }
{
    is_active_in(c.locality, c.state, locality)
}

// Whether the context of a slot is, read where it lies.
pub fn active_at<T: Slots>(t: &T, i: usize, locality: u32) -> bool
    requires { i < slot_count }
    ensures { result ≡ active_in (contexts_in (T.state t.now)) locality i }
{
    is_active_in(t.locality_at(i), t.state_at(i), locality)
}

// The lowest active slot of the locality with the handle.
#[tactic(auto, using(crate::proofs::Lookup::turn_on, crate::proofs::Lookup::or_miss, children::proofs::Below::some_next, children::proofs::Cases::and_left, children::proofs::Cases::and_right, children::proofs::Cases::or_right), unfolding(children::specs::Below::some))]
pub fn get_active_context_pos<T: Slots>(
    t: &T,
    handle: [u8; handle::SIZE],
    locality: u32,
) -> Result<usize, DpeErrorCode>
    ensures { result ≡ lookup_in slot_count (contexts_in (T.state t.now)) handle locality }
{
    let mut seen_locality = false;
    for i in 0..MAX_HANDLES {
        if active_at(t, i, locality) {
            seen_locality = true;
            if handle::equals(t.handle_at(i), handle) {
                return Ok(i);
            }
        }
    }
    if seen_locality {
        return Err(DpeErrorCode::InvalidHandle);
    }
    Err(DpeErrorCode::InvalidLocality)
}
