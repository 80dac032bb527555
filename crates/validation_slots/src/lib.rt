// The validator's tests of one slot after the other. validation.rs.
#![tactic(auto)]

ghost use Rattle.std.specs.Prelude.{◌≡◌, not, ◌<◌, ◌/◌, ◌^◌, eqb};
ghost use Rattle.children.specs.Marks.{slot_count, mark_count, marked};
ghost use Rattle.table.specs.State.{contexts_in};
ghost use Rattle.links.specs.Summary.{number_in};
ghost use Rattle.verdict.specs.Tests.{header_of, first_below, parent_test, child_test, state_of, context_of};
ghost use Rattle.validation_slots.specs.Summary.{slot_child, links_on, slot_in};

use children::MAX_HANDLES;
use context::{Context, ContextState, u8bool};
use error::ValidationError;
use links::Links;
use slots::Slots;

// The parent of the slot i.
#[tactic(auto, using(crate::proofs::Children::marks), unfolding(verdict::specs::Tests::parent_test, verdict::specs::Tests::where_of, verdict::specs::Tests::first, verdict::specs::Tests::need))]
fn parent_test(l: &Links, i: usize) -> Result<(), ValidationError>
    requires { i < slot_count }
    ensures { result ≡ parent_test slot_count (marked l.now.live) (number_in l.now.children) i (number_in l.now.parents i) }
{
    let p = l.parents[i];
    if p == context::ROOT_INDEX {
        return Ok(());
    }
    let q = usize::from(p);
    if q >= MAX_HANDLES {
        return Err(ValidationError::ParentDoesNotExist);
    }
    if !children::has_child(l.live, q) {
        return Err(ValidationError::InactiveParent);
    }
    if !children::has_child(l.children[q], i) {
        return Err(ValidationError::ParentChildLinksCorrupted);
    }
    Ok(())
}

// The slot k, which the slot i marks as its child.
#[tactic(auto, using(crate::proofs::Children::marks), unfolding(verdict::specs::Tests::first, verdict::specs::Tests::need))]
fn child_test(l: &Links, i: usize, k: usize) -> Result<(), ValidationError>
    requires { k < slot_count }
    ensures { result ≡ slot_child (marked l.now.live k) (number_in l.now.parents k) i }
{
    if !children::has_child(l.live, k) {
        return Err(ValidationError::InactiveChild);
    }
    if usize::from(l.parents[k]) != i {
        return Err(ValidationError::ParentChildLinksCorrupted);
    }
    Ok(())
}

// Whether there is a mark above those of the slots.
fn has_mark_above(m: u64) -> bool
    ensures { result ≡ not (eqb (m / 2 ^ slot_count) 0) }
{
    (m >> (MAX_HANDLES - 1)) >> 1 != 0
}

// The marks m of the slot i: those of slots from mark to mark, and then the rest in one test.
fn children_test(l: &Links, i: usize, m: u64) -> Result<(), ValidationError>
    ensures { result ≡ first_below (child_test slot_count (marked l.now.live) (number_in l.now.parents) i m) mark_count }
{
    let mut next = children::next(m, 0);
    while let Some(k) = next {
        child_test(l, i, k)?;
        next = children::next(m, k + 1);
    }
    if has_mark_above(m) {
        return Err(ValidationError::ChildDoesNotExist);
    }
    Ok(())
}

// The links of the slot i.
#[tactic(auto, unfolding(verdict::specs::Tests::links_test, verdict::specs::Tests::first))]
fn links_test(l: &Links, i: usize) -> Result<(), ValidationError>
    requires { i < slot_count }
    ensures { result ≡ links_on l.now.children l.now.parents l.now.live i }
{
    parent_test(l, i)?;
    children_test(l, i, l.children[i])
}

// An active context, in the slot i.
#[tactic(auto, unfolding(verdict::specs::Tests::state_of, verdict::specs::Tests::first, verdict::specs::Tests::need))]
fn active_test(c: Context, init: u8, l: &Links, i: usize) -> Result<(), ValidationError>
    requires { i < slot_count }
    ensures { result ≡ state_of ContextState.Active slot_count init c (links_on l.now.children l.now.parents l.now.live i) }
{
    if context::is_normal(c.context_type) & !u8bool::get(init) {
        return Err(ValidationError::DpeNotMarkedInitialized);
    }
    links_test(l, i)
}

// A retired context, in the slot i.
#[tactic(auto, unfolding(verdict::specs::Tests::state_of, verdict::specs::Tests::first, verdict::specs::Tests::need))]
fn retired_test(c: Context, l: &Links, i: usize) -> Result<(), ValidationError>
    requires { i < slot_count }
    ensures { result ≡ state_of ContextState.Retired slot_count 0 c (links_on l.now.children l.now.parents l.now.live i) }
{
    links_test(l, i)?;
    if children::count(c.children) == 0 {
        return Err(ValidationError::DanglingRetiredContext);
    }
    Ok(())
}

// The context of the slot i, by its state.
#[tactic(auto, unfolding(verdict::specs::Tests::state_of))]
fn state_test(c: Context, init: u8, l: &Links, i: usize) -> Result<(), ValidationError>
    requires { i < slot_count }
    ensures { result ≡ state_of c.state slot_count init c (links_on l.now.children l.now.parents l.now.live i) }
{
    match c.state {
        ContextState::Inactive => validation_fields::inactive_test(c),
        ContextState::Active => active_test(c, init, l, i),
        ContextState::Retired => retired_test(c, l, i),
    }
}

// The context of the slot i: support, then by its state, then its locality.
#[tactic(auto, unfolding(verdict::specs::Tests::context_of, verdict::specs::Tests::first, verdict::specs::Tests::need))]
pub fn context_test(
    c: Context,
    word: u32,
    init: u8,
    l: &Links,
    i: usize,
) -> Result<(), ValidationError>
    requires { i < slot_count }
    ensures { result ≡ context_of slot_count word init c (links_on l.now.children l.now.parents l.now.live i) }
{
    validation_fields::support_test(c, word)?;
    state_test(c, init, l, i)?;
    if c.locality != c.tci.locality {
        return Err(ValidationError::LocalityMismatch);
    }
    Ok(())
}

// Each slot of the table, upward.
#[tactic(auto, using(verdict::proofs::Steps::below_none, verdict::proofs::Steps::below_more))]
pub fn slots_test<T: Slots>(t: &T, l: &Links) -> Result<(), ValidationError>
    ensures { result ≡ first_below (slot_in (header_of (T.state t.now)) (contexts_in (T.state t.now)) l.now.children l.now.parents l.now.live) slot_count }
{
    let word = t.support();
    let init = t.has_initialized();
    for i in 0..MAX_HANDLES {
        context_test(t.context_at(i), word, init, l, i)?;
    }
    Ok(())
}
