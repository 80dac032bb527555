// The slots of a set cleared, and their marks taken from every slot. destroy_context.rs.
#![tactic(auto)]

ghost use Rattle.std.specs.Prelude.{◌≡◌, ◌<◌};
ghost use Rattle.children.specs.Marks.{slot_count};
ghost use Rattle.table.specs.State.{contexts_in, with_slot};
ghost use Rattle.clearing.specs.Clearing.{cleared_slot, cleared_by};

use children::MAX_HANDLES;
use slots::SlotsMut;
use table::state::State;

// The slot i is cleared where the set has it, and else loses the marks of the set; marks that stay the same are not written.
fn clear_slot<T: SlotsMut>(t: &mut T, i: usize, set: u64)
    requires { T.Reads t.old × (i < slot_count) }
    ensures reads { T.Reads t.new }
    ensures state { T.state t.new ≡ with_slot (T.state t.old) i (cleared_slot set i (contexts_in (T.state t.old) i)) }
{
    if children::has_child(set, i) {
        let cleared = t.context_at(i).destroy();
        t.put_context(i, cleared);
        return;
    }
    let kids = t.children_at(i);
    let left = children::remove_children(kids, set);
    if left != kids {
        t.put_children(i, left);
    }
}

// Every slot so.
pub fn clear<T: SlotsMut>(t: &mut T, set: u64)
    requires { T.Reads t.old }
    ensures reads { T.Reads t.new }
    ensures state { T.state t.new ≡ cleared_by (T.state t.old) set }
{
    for i in 0..MAX_HANDLES {
        clear_slot(t, i, set);
    }
}

// The same by value: the table in, and back.
#[tactic(auto, using(table::proofs::Sizes::slots))]
pub fn cleared(t: State, set: u64) -> State
    ensures { result ≡ cleared_by t set }
{
    let mut state = t;
    clear(&mut state, set);
    state
}
