// Who is below whom, in a few words: the summary of a table that the validator runs over. Added; the Rust has none.
#![tactic(auto)]

ghost use Rattle.std.specs.Prelude.{◌≡◌};
ghost use Rattle.table.specs.State.{contexts_in};
ghost use Rattle.links.specs.Summary.{summary_of};

use children::MAX_HANDLES;
use slots::Slots;

#[derive(Clone, Copy, Debug, PartialEq, Eq)]
pub struct Links {
    pub children: [u64; MAX_HANDLES],
    pub parents: [u8; MAX_HANDLES],
    // The slots that are not inactive, that are retired, and that are of the type Simulation, as marks.
    pub live: u64,
    pub retired: u64,
    pub simulations: u64,
}

// The summary of a table, in one pass.
pub fn links_of<T: Slots>(t: &T) -> Links
    ensures { result ≡ summary_of (contexts_in (T.state t.now)) }
{
    let mut children = [0u64; MAX_HANDLES];
    let mut parents = [0u8; MAX_HANDLES];
    let mut live = children::empty();
    let mut retired = children::empty();
    let mut simulations = children::empty();
    for i in 0..MAX_HANDLES {
        children[i] = t.children_at(i);
        parents[i] = t.parent_at(i);
        let s = t.state_at(i);
        live = children::with_if(!context::is_inactive(s), live, i);
        retired = children::with_if(context::is_retired(s), retired, i);
        simulations = children::with_if(!context::is_normal(t.context_type_at(i)), simulations, i);
    }
    Links {
        children,
        parents,
        live,
        retired,
        simulations,
    }
}
