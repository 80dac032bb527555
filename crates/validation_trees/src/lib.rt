// The validator's tests of the forest: types below each root, Normal roots, cycles. validation.rs.
#![tactic(auto)]

ghost use Rattle.std.specs.Prelude.{◌≡◌, ◌<◌};
ghost use Rattle.children.specs.Below.{count, every};
ghost use Rattle.children.specs.Marks.{slot_count};
ghost use Rattle.forest.specs.Search.{visit, is_root, search_roots, normal_root, last_tests, find_fault};
ghost use Rattle.verdict.specs.Tests.{found_fault};
ghost use Rattle.validation_trees.specs.Summary.{table_by, kind_in, told, root_step, seen_in};

use children::MAX_HANDLES;
use context::u8bool;
use error::ValidationError;
use links::Links;

// The slots below a slot, all of the type `kind`, a number as the search has it. `seen` marks the slots met so far; `depth` falls.
#[tactic(auto, using(crate::proofs::Searches::visits, crate::proofs::Searches::marks), unfolding(crate::specs::Summary::told))]
fn detect_invalid_subtree(
    l: &Links,
    kind: u8,
    seen: u64,
    slot: usize,
    depth: usize,
) -> Result<u64, ValidationError>
    requires { slot < slot_count }
    ensures { result ≡ told (visit slot_count (table_by l.now) (kind_in l.now.simulations) kind depth seen slot) }
{
    if depth == 0 {
        return Err(ValidationError::CyclesInTree);
    }
    if children::has_child(seen, slot) {
        return Err(ValidationError::CyclesInTree);
    }
    if !children::has_child(l.live, slot) {
        return Err(ValidationError::CyclesInTree);
    }
    if u8bool::new(children::has_child(l.simulations, slot)) != kind {
        return Err(ValidationError::MixedContextTypeConnectedComponents);
    }
    let mut met = children::with(seen, slot);
    let kids = l.children[slot];
    let mut next = children::next(kids, 0);
    while let Some(k) = next {
        met = detect_invalid_subtree(l, kind, met, k, depth - 1)?;
        next = children::next(kids, k + 1);
    }
    Ok(met)
}

// Whether a slot is live and has no parent.
#[tactic(auto, using(crate::proofs::Searches::root_in, crate::proofs::Searches::marks))]
fn is_root(l: &Links, i: usize) -> bool
    requires { i < slot_count }
    ensures { result ≡ is_root (table_by l.now) i }
{
    children::has_child(l.live, i) & (l.parents[i] == context::ROOT_INDEX)
}

// The slots below the slot i, where it is a root.
#[tactic(auto, using(crate::proofs::Searches::steps, crate::proofs::Searches::marks), unfolding(crate::specs::Summary::told))]
fn root_step(l: &Links, seen: u64, i: usize) -> Result<u64, ValidationError>
    requires { i < slot_count }
    ensures { result ≡ told (root_step (table_by l.now) (kind_in l.now.simulations) seen i) }
{
    if !is_root(l, i) {
        return Ok(seen);
    }
    let kind = u8bool::new(children::has_child(l.simulations, i));
    detect_invalid_subtree(l, kind, seen, i, MAX_HANDLES)
}

// The slots below all roots, upward.
#[tactic(auto, using(crate::proofs::Searches::roots, crate::proofs::Searches::told_seen), unfolding(crate::specs::Summary::told, forest::specs::Search::search_roots))]
fn search_roots(l: &Links) -> Result<u64, ValidationError>
    ensures { result ≡ told (search_roots slot_count (table_by l.now) (kind_in l.now.simulations)) }
{
    let mut seen = children::empty();
    for i in 0..MAX_HANDLES {
        seen = root_step(l, seen, i)?;
    }
    Ok(seen)
}

// How many roots are Normal.
#[tactic(auto, using(crate::proofs::Searches::normals, crate::proofs::Searches::marks))]
fn normal_roots(l: &Links) -> usize
    ensures { result ≡ count (normal_root (table_by l.now) (kind_in l.now.simulations)) slot_count }
{
    let mut found: usize = 0;
    for i in 0..MAX_HANDLES {
        if is_root(l, i) & !children::has_child(l.simulations, i) {
            found += 1;
        }
    }
    found
}

// Whether every live slot was seen.
#[tactic(auto, using(crate::proofs::Searches::seens))]
fn all_seen(live: u64, seen: u64) -> bool
    ensures { result ≡ every (seen_in live seen) slot_count }
{
    children::count(children::remove_children(live, seen)) == 0
}

// What is left to test after the search.
#[tactic(auto, using(crate::proofs::Searches::lasts))]
fn last_tests(l: &Links, seen: u64) -> Result<(), ValidationError>
    ensures { result ≡ found_fault (last_tests slot_count (table_by l.now) seen (count (normal_root (table_by l.now) (kind_in l.now.simulations)) slot_count)) }
{
    if normal_roots(l) > 1 {
        return Err(ValidationError::MultipleNormalConnectedComponents);
    }
    if !all_seen(l.live, seen) {
        return Err(ValidationError::CyclesInTree);
    }
    Ok(())
}

// The search from the roots, and then the last tests.
pub fn trees_test(l: &Links) -> Result<(), ValidationError>
    ensures { result ≡ found_fault (find_fault slot_count (table_by l.now) (kind_in l.now.simulations)) }
{
    let seen = search_roots(l)?;
    last_tests(l, seen)
}
