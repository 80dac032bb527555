// The validator's tests of the localities. validation.rs.
#![tactic(auto)]

ghost use Rattle.std.specs.Prelude.{◌≡◌, ◌<◌};
ghost use Rattle.children.specs.Below.{some};
ghost use Rattle.children.specs.Marks.{slot_count, mark_count, marked};
ghost use Rattle.table.specs.State.{contexts_in};
ghost use Rattle.links.specs.Summary.{number_in};
ghost use Rattle.verdict.specs.Tests.{within, mix_test, locality_of, localities_test};
ghost use Rattle.validation_localities.specs.Summary.{places_of, beside_in, crowded_in, tally};

use children::MAX_HANDLES;
use error::ValidationError;
use slots::Slots;

// Who is where.
#[derive(Clone, Copy, Debug, PartialEq, Eq)]
pub struct Places {
    pub localities: [u32; MAX_HANDLES],
    // The active contexts that are defaults, and that are not, as marks.
    pub defaults: u64,
    pub others: u64,
}

// The places of a table, in one pass.
pub fn places_of<T: Slots>(t: &T) -> Places
    ensures { result ≡ places_of (contexts_in (T.state t.now)) }
{
    let mut localities = [0u32; MAX_HANDLES];
    let mut defaults = children::empty();
    let mut others = children::empty();
    for i in 0..MAX_HANDLES {
        localities[i] = t.locality_at(i);
        let a = context::is_active(t.state_at(i));
        let d = handle::is_default(t.handle_at(i));
        defaults = children::with_if(a & d, defaults, i);
        others = children::with_if(a & !d, others, i);
    }
    Places {
        localities,
        defaults,
        others,
    }
}

// One more where b holds.
fn one_more(b: bool, x: usize) -> usize
    requires { x < mark_count }
    ensures { result ≡ tally b x }
{
    if b { x + 1 } else { x }
}

// The active defaults and others of a locality, so far.
#[tactic(auto, unfolding(verdict::specs::Tests::mix_test, verdict::specs::Tests::first, verdict::specs::Tests::need))]
fn mix_test(d: usize, o: usize) -> Result<(), ValidationError>
    ensures { result ≡ mix_test d o }
{
    if d > 1 {
        return Err(ValidationError::MultipleDefaultContexts);
    }
    if (d != 0) & (o != 0) {
        return Err(ValidationError::MixedContextLocality);
    }
    Ok(())
}

// The locality l, slots upward.
#[tactic(auto, using(verdict::proofs::Steps::below_none, crate::proofs::Counts::counts), unfolding(verdict::specs::Tests::locality_of))]
fn locality_test(p: &Places, l: u32) -> Result<(), ValidationError>
    ensures { result ≡ locality_of slot_count (within (number_in p.now.localities) (marked p.now.defaults) l) (within (number_in p.now.localities) (marked p.now.others) l) }
{
    let mut d: usize = 0;
    let mut o: usize = 0;
    for k in 0..MAX_HANDLES {
        let here = p.localities[k] == l;
        d = one_more(here & children::has_child(p.defaults, k), d);
        o = one_more(here & children::has_child(p.others, k), o);
        mix_test(d, o)?;
    }
    Ok(())
}

// Whether another default than slot i, or an active other, is in the locality of slot i.
#[tactic(auto, using(crate::proofs::Counts::somes, crate::proofs::Counts::marks))]
fn shares(p: &Places, i: usize) -> bool
    requires { i < slot_count }
    ensures { result ≡ some (beside_in (number_in p.now.localities) (marked p.now.defaults) (marked p.now.others) i) slot_count }
{
    let l = p.localities[i];
    let mut found = false;
    for k in 0..MAX_HANDLES {
        let other = (children::has_child(p.defaults, k) & (k != i))
            | children::has_child(p.others, k);
        found = found | ((p.localities[k] == l) & other);
    }
    found
}

// Whether slot i is an active default that is not alone in its locality.
#[tactic(auto, using(crate::proofs::Counts::marks))]
fn crowds(p: &Places, i: usize) -> bool
    requires { i < slot_count }
    ensures { result ≡ crowded_in slot_count (number_in p.now.localities) (marked p.now.defaults) (marked p.now.others) i }
{
    if !children::has_child(p.defaults, i) {
        return false;
    }
    shares(p, i)
}

// Whether some slot is. Where none is, no locality has a fault.
#[tactic(auto, using(crate::proofs::Counts::somes))]
fn is_crowded(p: &Places) -> bool
    ensures { result ≡ some (crowded_in slot_count (number_in p.now.localities) (marked p.now.defaults) (marked p.now.others)) slot_count }
{
    for i in 0..MAX_HANDLES {
        if crowds(p, i) {
            return true;
        }
    }
    false
}

// The first fault of the localities of the slots, upward.
#[tactic(auto, using(verdict::proofs::Steps::below_none, verdict::proofs::Steps::below_more), unfolding(verdict::specs::Tests::localities_test))]
fn first_fault(p: &Places) -> Result<(), ValidationError>
    ensures { result ≡ localities_test slot_count (number_in p.now.localities) (marked p.now.defaults) (marked p.now.others) }
{
    for j in 0..MAX_HANDLES {
        locality_test(p, p.localities[j])?;
    }
    Ok(())
}

// The localities of the slots, upward.
pub fn localities_test(p: &Places) -> Result<(), ValidationError>
    ensures { result ≡ localities_test slot_count (number_in p.now.localities) (marked p.now.defaults) (marked p.now.others) }
{
    if !is_crowded(p) {
        return Ok(());
    }
    first_fault(p)
}
