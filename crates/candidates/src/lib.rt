// The choice of a new handle among lent candidates. `generate_new_handle` of dpe_instance.rs, with a buffer in place of the crypto service.
#![tactic(auto)]

ghost use Rattle.std.specs.Prelude.{◌≡◌, ◌<◌, ◌+◌, ◌*◌, ◌≤◌, length};
ghost use Rattle.children.specs.Marks.{slot_count};
ghost use Rattle.handle.specs.Handle.{handle_size};
ghost use Rattle.table.specs.State.{contexts_in};
ghost use Rattle.candidates.specs.Candidates.{candidate_at, has_handle, chosen_in};

use children::MAX_HANDLES;
use error::{AddedErrorCode, DpeErrorCode, InternalErrorCode};
use slots::Slots;

// How many candidates are tried.
pub const MAX_NEW_HANDLE_ATTEMPTS: usize = 8;

// Candidate k of the buffer.
pub fn candidate_at(candidates: &[u8], k: usize) -> [u8; handle::SIZE]
    requires { (k + 1) * handle_size ≤ length candidates.now }
    ensures { result ≡ candidate_at candidates.now k }
{
    wire::read_array(candidates, k * handle::SIZE)
}

// Whether the slot has the handle, in whatever state it is.
fn has_handle<T: Slots>(t: &T, i: usize, h: [u8; handle::SIZE]) -> bool
    requires { i < slot_count }
    ensures { result ≡ has_handle (contexts_in (T.state t.now)) h i }
{
    handle::equals(t.handle_at(i), h)
}

// The first usable candidate: not all zero, and the handle of no slot.
#[tactic(auto, using(crate::proofs::Candidates::turn_short, crate::proofs::Candidates::turn_on, crate::proofs::Candidates::usables, children::proofs::Below::some_next, children::proofs::Cases::or_none), unfolding(children::specs::Below::some))]
pub fn generate_new_handle<T: Slots>(
    t: &T,
    candidates: &[u8],
) -> Result<[u8; handle::SIZE], DpeErrorCode>
    ensures { result ≡ chosen_in slot_count (contexts_in (T.state t.now)) candidates.now }
{
    'candidates: for k in 0..MAX_NEW_HANDLE_ATTEMPTS {
        if candidates.len() < (k + 1) * handle::SIZE {
            return Err(DpeErrorCode::Added(AddedErrorCode::CandidatesShort));
        }
        let h = candidate_at(candidates, k);
        if handle::is_default(h) {
            continue 'candidates;
        }
        for i in 0..MAX_HANDLES {
            if has_handle(t, i, h) {
                continue 'candidates;
            }
        }
        return Ok(h);
    }
    Err(DpeErrorCode::InternalError(InternalErrorCode::HandleGenerationExhausted))
}
