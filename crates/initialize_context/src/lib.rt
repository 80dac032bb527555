// Initialise a default or a simulation context. initialize_context.rs.
#![tactic(auto)]

ghost use Rattle.std.specs.Prelude.{◌≡◌, ◌<◌};
ghost use Rattle.children.specs.Marks.{slot_count};
ghost use Rattle.context.specs.Context.{active_context};
ghost use Rattle.slots.specs.Ends.{Ends};
ghost use Rattle.initialize_context.specs.Initialize.{not_supported, both_or_neither, root_args, default_in, simulation_of, initialized_of};

use context::{ActiveContextArgs, Context, ContextType, ROOT_INDEX, u8bool};
use error::DpeErrorCode;
use slots::SlotsMut;
use table::state::{Outcome, State};
use table::{flags, support};

// Whether the default context is asked for again, or a simulation that is not supported.
pub fn not_supported(support: u32, has_initialized: u8, flags: u32) -> bool
    ensures { result ≡ not_supported support has_initialized flags }
{
    let again = flags::has_bit(flags, flags::INIT_DEFAULT_BIT) & u8bool::get(has_initialized);
    let unsupported = flags::has_bit(flags, flags::INIT_SIMULATION_BIT)
        & !flags::has_bit(support, support::SIMULATION_BIT);
    again | unsupported
}

// Whether both flags are set, or neither.
pub fn both_or_neither(flags: u32) -> bool
    ensures { result ≡ both_or_neither flags }
{
    !(flags::has_bit(flags, flags::INIT_DEFAULT_BIT)
        ^ flags::has_bit(flags, flags::INIT_SIMULATION_BIT))
}

// A new context with no parent.
pub fn root(
    context_type: ContextType,
    handle: [u8; handle::SIZE],
    locality: u32,
    allow_recursive: bool,
) -> Context
    ensures { result ≡ active_context (root_args context_type handle locality allow_recursive) }
{
    Context::activate(ActiveContextArgs {
        context_type,
        locality,
        handle,
        tci_type: 0,
        parent_idx: ROOT_INDEX,
        allow_x509: true,
        uses_internal_input_info: false,
        uses_internal_input_dice: false,
        allow_export_cdi: true,
        svn: 0,
        allow_recursive,
    })
}

// The default context in slot i.
fn initialize_default<T: SlotsMut>(
    t: &mut T,
    i: usize,
    locality: u32,
) -> Result<[u8; handle::SIZE], DpeErrorCode>
    requires { T.Reads t.old × (i < slot_count) }
    ensures { Ends T.state T.Reads t.old t.new result (default_in (T.state t.old) locality i) }
{
    let handle = handle::default();
    let c = root(ContextType::Normal, handle, locality, true);
    t.put_context(i, c);
    t.put_initialized();
    Ok(handle)
}

// A simulation context in slot i, with a candidate for its handle.
fn initialize_simulation<T: SlotsMut>(
    t: &mut T,
    i: usize,
    locality: u32,
    candidates: &[u8],
) -> Result<[u8; handle::SIZE], DpeErrorCode>
    requires { T.Reads t.old × (i < slot_count) }
    ensures { Ends T.state T.Reads t.old t.new result (simulation_of (T.state t.old) locality i candidates.now) }
{
    let handle = candidates::generate_new_handle(t, candidates)?;
    let c = root(ContextType::Simulation, handle, locality, false);
    t.put_context(i, c);
    Ok(handle)
}

// The lowest inactive slot becomes the default context, or a simulation context.
pub fn initialize_on<T: SlotsMut>(
    t: &mut T,
    flags: u32,
    locality: u32,
    candidates: &[u8],
) -> Result<[u8; handle::SIZE], DpeErrorCode>
    requires { T.Reads t.old }
    ensures { Ends T.state T.Reads t.old t.new result (initialized_of (T.state t.old) flags locality candidates.now) }
{
    if not_supported(t.support(), t.has_initialized(), flags) {
        return Err(DpeErrorCode::ArgumentNotSupported);
    }
    if both_or_neither(flags) {
        return Err(DpeErrorCode::InvalidArgument);
    }
    let i = lookup::find::get_next_inactive_context_pos(t)?;
    if flags::has_bit(flags, flags::INIT_DEFAULT_BIT) {
        return initialize_default(t, i, locality);
    }
    initialize_simulation(t, i, locality, candidates)
}

// The same by value: the table in, and back.
#[tactic(auto, using(table::proofs::Sizes::slots, slots::proofs::Ends::by_value))]
pub fn initialize_context(
    t: State,
    flags: u32,
    locality: u32,
    candidates: &[u8],
) -> Outcome<[u8; handle::SIZE]>
    ensures { result ≡ initialized_of t flags locality candidates.now }
{
    let mut state = t;
    let answer = initialize_on(&mut state, flags, locality, candidates);
    Outcome { answer, state }
}
