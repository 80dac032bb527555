// The whole table. state.rs.
ghost use Rattle.std.specs.Prelude.{◌≡◌, ◌<◌};
ghost use Rattle.children.specs.Marks.{slot_count};
ghost use Rattle.table.specs.State.{new_state, with_slot, with_initialized};

use children::MAX_HANDLES;
use context::Context;
use error::DpeErrorCode;

// "DPES", read as a big-endian number.
pub const MAGIC: u32 = 0x4450_4553;

pub const VERSION: u32 = 1;

#[derive(Clone, Copy)]
pub struct State {
    pub marker: u32,
    pub version: u32,
    pub contexts: [Context; MAX_HANDLES],
    pub support: u32,
    pub flags: u16,
    // A byte and no bool: an image may hold any byte here and keeps it.
    pub has_initialized: u8,
    pub reserved: u8,
}

// How a call ended that may change the table, and the table: the one that was given where the answer is a refusal.
#[derive(Clone, Copy)]
pub struct Outcome<T> {
    pub answer: Result<T, DpeErrorCode>,
    pub state: State,
}

impl State {
    // A table with no context.
    pub fn new(support: u32, flags: u16) -> State
        ensures { result ≡ new_state support flags }
    {
        let c = Context::new();
        let contexts = [c; MAX_HANDLES];
        State {
            marker: MAGIC,
            version: VERSION,
            contexts,
            support,
            flags,
            has_initialized: 0,
            reserved: 0,
        }
    }
}

// The table with another context in one slot.
pub fn with_context(t: State, i: usize, c: Context) -> State
    requires { i < slot_count }
    ensures { result ≡ with_slot t i c }
{
    let mut u = t;
    u.contexts[i] = c;
    u
}

// The table, marked as initialised.
pub fn with_initialized(t: State) -> State
    ensures { result ≡ with_initialized t }
{
    let mut u = t;
    u.has_initialized = 1;
    u
}
