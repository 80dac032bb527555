// Marks of slots, held as a plain u64: bit k of the word marks slot k. `Children` of context.rs.
#![tactic(auto)]

ghost use Rattle.std.specs.Prelude.{◌≡◌, not, ◌≤◌, ◌<◌, eqb};
ghost use Rattle.std.specs.Int.Count.{count_trailing_zeros};
ghost use Rattle.children.specs.Marks.{slot_count, mark_count, has_below, with, joined, without, with_if, count_below, next_of, add_child_of};

use error::{DpeErrorCode, InternalErrorCode};

// The number of slots of a table.
pub const MAX_HANDLES: usize = 32;

// The marks that are counted and iterated: those below MAX_HANDLES.
const SLOT_MARKS: u64 = 0xffff_ffff;

// No marks.
pub fn empty() -> u64
    ensures { result ≡ 0 }
{
    0
}

// The marks of m, and slot k.
pub fn with(m: u64, k: usize) -> u64
    requires { k < mark_count }
    ensures { result ≡ with m k }
{
    m | (1 << k)
}

// The marks of m, and slot k where b holds.
pub fn with_if(b: bool, m: u64, k: usize) -> u64
    requires { k < mark_count }
    ensures { result ≡ with_if b m k }
{
    if b { with(m, k) } else { m }
}

// The marks of m, and slot k, which has to be a slot.
pub fn add_child(m: u64, k: usize) -> Result<u64, DpeErrorCode>
    ensures { result ≡ add_child_of slot_count m k }
{
    if k >= MAX_HANDLES {
        return Err(DpeErrorCode::InternalError(InternalErrorCode::ChildrenBitmapIndexOob));
    }
    Ok(with(m, k))
}

// Whether none of all 64 marks is there.
pub fn is_empty(m: u64) -> bool
    ensures { result ≡ eqb m 0 }
{
    m == 0
}

// Whether one of all 64 marks is there.
pub fn has_children(m: u64) -> bool
    ensures { result ≡ not (eqb m 0) }
{
    !is_empty(m)
}

// Whether slot k is marked; what is no slot never is.
pub fn has_child(m: u64, k: usize) -> bool
    ensures { result ≡ has_below slot_count m k }
{
    if k < MAX_HANDLES {
        (m >> k) & 1 == 1
    } else {
        false
    }
}

// The marks of a and of b.
pub fn add_children(a: u64, b: u64) -> u64
    ensures { result ≡ joined a b }
{
    a | b
}

// The marks of a that b has not.
pub fn remove_children(a: u64, b: u64) -> u64
    ensures { result ≡ without a b }
{
    a & !b
}

// How many slots are marked.
pub fn count(m: u64) -> usize
    ensures { result ≡ count_below slot_count m }
{
    u64::count_ones(m & SLOT_MARKS) as usize
}

fn zeros(m: u64) -> usize
    ensures { (result ≡ count_trailing_zeros mark_count m) × (result ≤ mark_count) }
{
    u64::trailing_zeros(m) as usize
}

// The next marked slot, at k or above it.
pub fn next(m: u64, k: usize) -> Option<usize>
    ensures { result ≡ next_of slot_count m k }
{
    if k >= MAX_HANDLES {
        return None;
    }
    let r = k + zeros(m >> k);
    if r < MAX_HANDLES { Some(r) } else { None }
}
