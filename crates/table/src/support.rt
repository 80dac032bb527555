// What a table supports, as bits of a word: the number of each, and its mask. support.rs; the bits that no call here asks for are left out.
pub const SIMULATION_BIT: u32 = 31;

pub const ROTATE_CONTEXT_BIT: u32 = 27;

pub const X509_BIT: u32 = 26;

pub const INTERNAL_INFO_BIT: u32 = 22;

pub const INTERNAL_DICE_BIT: u32 = 21;

pub const SIMULATION: u32 = 1 << SIMULATION_BIT;

pub const ROTATE_CONTEXT: u32 = 1 << ROTATE_CONTEXT_BIT;

pub const X509: u32 = 1 << X509_BIT;

pub const INTERNAL_INFO: u32 = 1 << INTERNAL_INFO_BIT;

pub const INTERNAL_DICE: u32 = 1 << INTERNAL_DICE_BIT;
