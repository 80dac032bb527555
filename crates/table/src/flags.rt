// The flags of the commands, as bits of a word: the number of each, its mask, and the test of a bit. initialize_context.rs and rotate_context.rs.
ghost use Rattle.std.specs.Prelude.{◌≡◌};
ghost use Rattle.children.specs.Marks.{marked};

pub const INIT_SIMULATION_BIT: u32 = 31;

pub const INIT_DEFAULT_BIT: u32 = 30;

pub const ROTATE_TARGET_IS_DEFAULT_BIT: u32 = 31;

pub const INIT_SIMULATION: u32 = 1 << INIT_SIMULATION_BIT;

pub const INIT_DEFAULT: u32 = 1 << INIT_DEFAULT_BIT;

pub const ROTATE_TARGET_IS_DEFAULT: u32 = 1 << ROTATE_TARGET_IS_DEFAULT_BIT;

// Whether a bit of a word is set; what is no bit of it never is.
pub fn has_bit(word: u32, bit: u32) -> bool
    ensures { result ≡ marked word bit }
{
    bit < u32::BITS && (word >> bit) & 1 == 1
}
