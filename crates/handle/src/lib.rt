// The handle of a context, 16 bytes. `ContextHandle` of context.rs.
#![tactic(auto)]

ghost use Rattle.std.specs.Prelude.{◌≡◌};
ghost use Rattle.handle.specs.Handle.{same_bytes, is_default, default_handle, invalid_handle};

pub const SIZE: usize = 16;

// The handle of a default context: all zero.
pub fn default() -> [u8; SIZE]
    ensures { result ≡ default_handle }
{
    [0; SIZE]
}

// The handle of a cleared context: all 0xff.
pub fn new_invalid() -> [u8; SIZE]
    ensures { result ≡ invalid_handle }
{
    [0xff; SIZE]
}

// Whether two handles are the same. Every byte is looked at, whatever the others were: handles are secrets, and an `==` of arrays may end early.
#[tactic(auto, unfolding(crate::specs::Handle::same_bytes))]
pub fn equals(a: [u8; SIZE], b: [u8; SIZE]) -> bool
    ensures { result ≡ same_bytes a b }
{
    let mut same = true;
    for (x, y) in a.iter().zip(b.iter()) {
        same &= x == y;
    }
    same
}

pub fn is_default(h: [u8; SIZE]) -> bool
    ensures { result ≡ is_default h }
{
    equals(h, default())
}
