// A boolean kept in a byte: true when it is not 0, and set to 0 or 1. `U8Bool` of lib.rs.
ghost use Rattle.std.specs.Prelude.{◌≡◌};
ghost use Rattle.context.specs.Bytes.{is_on, byte_of};

pub fn get(b: u8) -> bool
    ensures { result ≡ is_on b }
{
    b != 0
}

pub fn new(b: bool) -> u8
    ensures { result ≡ byte_of b }
{
    u8::from(b)
}
