// Writes the sample images to standard output, one after another. samples/ has each in a file of its own, with its listing.
#![tactic(auto)]

ghost use Rattle.std.specs.Prelude.{◌<◌};
ghost use Rattle.children.specs.Marks.{slot_count, mark_count};

use children::MAX_HANDLES;
use context::{ActiveContextArgs, Context, ContextState, ContextType};
use std::io;
use table::state::State;
use table::{state, support};

// Everything that a call asks for.
const SUPPORT: u32 = support::SIMULATION
    | support::ROTATE_CONTEXT
    | support::X509
    | support::INTERNAL_INFO
    | support::INTERNAL_DICE;

// The slot whose state byte says no state, and that byte.
const BAD_SLOT: usize = 3;

const BAD_STATE: u8 = 9;

// An active context; every byte of its handle is `name`, which is 0 for a default context.
fn active(kind: ContextType, name: u8, locality: u32, parent_idx: u8, children: u64) -> Context {
    let handle = [name; handle::SIZE];
    let c = Context::activate(ActiveContextArgs {
        context_type: kind,
        locality,
        handle,
        tci_type: 0,
        parent_idx,
        allow_x509: true,
        uses_internal_input_info: false,
        uses_internal_input_dice: false,
        allow_export_cdi: true,
        svn: 0,
        allow_recursive: false,
    });
    Context { children, ..c }
}

// The same context, retired.
fn retired(kind: ContextType, name: u8, locality: u32, parent_idx: u8, children: u64) -> Context {
    let c = active(kind, name, locality, parent_idx, children);
    Context {
        state: ContextState::Retired,
        ..c
    }
}

// The mark of a slot.
fn mark(i: usize) -> u64
    requires { i < mark_count }
{
    children::with(children::empty(), i)
}

// The marks of two slots.
fn marks(i: usize, k: usize) -> u64
    requires i_lt_mark_count { i < mark_count }
    requires k_lt_mark_count { k < mark_count }
{
    children::with(mark(i), k)
}

// A table with no context.
fn new_table() -> State {
    State::new(SUPPORT, 0)
}

// A table with one context, in slot 0.
fn table_of(c: Context) -> State {
    state::with_initialized(state::with_context(new_table(), 0, c))
}

// The default context of locality 7, at the root.
fn default_context() -> Context {
    active(ContextType::Normal, 0, 7, context::ROOT_INDEX, 0)
}

// The table of that context alone.
fn one() -> State {
    table_of(default_context())
}

// The same table with another context beside it.
fn one_and(c: Context) -> State {
    state::with_context(one(), 1, c)
}

// A tree of six Normal contexts, two of them retired, in two localities.
fn with_normal_tree(t: State) -> State {
    let normal = ContextType::Normal;
    let a = retired(normal, 2, 7, context::ROOT_INDEX, marks(5, 9));
    let b = active(normal, 0, 7, 2, 0);
    let c = retired(normal, 9, 8, 2, marks(12, 31));
    let d = active(normal, 12, 8, 9, 0);
    let e = active(normal, 31, 8, 9, mark(13));
    let f = active(normal, 13, 8, 31, 0);
    let t = state::with_context(t, 2, a);
    let t = state::with_context(t, 5, b);
    let t = state::with_context(t, 9, c);
    let t = state::with_context(t, 12, d);
    let t = state::with_context(t, 31, e);
    state::with_context(t, 13, f)
}

// Two trees of simulation contexts: four contexts with a retired one, and a single one.
fn with_simulation_trees(t: State) -> State {
    let simulation = ContextType::Simulation;
    let a = active(simulation, 17, 8, context::ROOT_INDEX, marks(0, 28));
    let b = active(simulation, 1, 8, 17, 0);
    let c = retired(simulation, 28, 8, 17, mark(20));
    let d = active(simulation, 20, 8, 28, 0);
    let e = active(simulation, 24, 8, context::ROOT_INDEX, 0);
    let t = state::with_context(t, 17, a);
    let t = state::with_context(t, 0, b);
    let t = state::with_context(t, 28, c);
    let t = state::with_context(t, 20, d);
    state::with_context(t, 24, e)
}

// Three trees in two localities, in scattered slots.
fn forest() -> State {
    let t = with_normal_tree(new_table());
    state::with_initialized(with_simulation_trees(t))
}

// The parent of slot i in a chain of all slots.
fn above(i: usize) -> u8
    requires { i < slot_count }
{
    if i == 0 {
        context::ROOT_INDEX
    } else {
        (i - 1) as u8
    }
}

// The marks of slot i in that chain.
fn below(i: usize) -> u64
    requires { i < slot_count }
{
    if i + 1 < MAX_HANDLES { mark(i + 1) } else { 0 }
}

// The chain.
fn chain() -> State {
    let mut t = state::with_initialized(new_table());
    for i in 0..MAX_HANDLES {
        let c = active(ContextType::Normal, i as u8 + 1, 7, above(i), below(i));
        t = state::with_context(t, i, c);
    }
    t
}

// Writes the image of a table.
fn put(rt: &impl Print, t: State) -> io::Result<()> {
    let mut image = [0u8; image::state::SIZE];
    image_table::write_state(t, &mut image).unwrap();
    rt.write_all(&image)
}

// Writes the image of a table with a state byte that says no state.
fn put_bad_state(rt: &impl Print, t: State) -> io::Result<()> {
    let mut image = [0u8; image::state::SIZE];
    image_table::write_state(t, &mut image).unwrap();
    let at = image::state::CONTEXTS_AT + image_context::SIZE * BAD_SLOT;
    image[at + image_kinds::STATE_AT] = BAD_STATE;
    rt.write_all(&image)
}

// The samples, by the names that they have in samples/.
fn main(rt: HostRuntime) -> io::Result<()> {
    let root = context::ROOT_INDEX;
    // new, one, forest, chain: yes.
    put(&rt, new_table())?;
    put(&rt, one())?;
    put(&rt, forest())?;
    put(&rt, chain())?;
    // cycle: its own parent and its own child.
    put(&rt, table_of(active(ContextType::Normal, 1, 7, 0, mark(0))))?;
    // far-mark: the mark of no slot.
    put(
        &rt,
        table_of(active(ContextType::Normal, 1, 7, root, mark(MAX_HANDLES))),
    )?;
    // mixed: a default context and another one in its locality.
    put(&rt, one_and(active(ContextType::Simulation, 1, 7, root, 0)))?;
    // two-roots: two Normal contexts at the root.
    put(&rt, one_and(active(ContextType::Normal, 1, 8, root, 0)))?;
    // dangling: a retired context with no child.
    put(&rt, table_of(retired(ContextType::Normal, 1, 7, root, 0)))?;
    // marker: not a table's marker.
    put(&rt, State { marker: 0, ..one() })?;
    // state-byte: a state byte that says no state.
    put_bad_state(&rt, one())
}
