// Little-endian numbers and runs of bytes at an offset of a slice.
#![tactic(auto)]

ghost use Rattle.std.specs.Prelude.{◌≡◌, ◌+◌, ◌≤◌, length};
ghost use Rattle.wire.specs.Le.{part, le, le_bytes, put};

// The number of the 2 bytes at `at`.
pub fn read_u16(s: &[u8], at: usize) -> u16
    requires { at + 2 ≤ length s.now }
    ensures { result ≡ le (part at 2 s.now) }
{
    u16::from_le_bytes(read_array(s, at))
}

// The number of the 4 bytes at `at`.
pub fn read_u32(s: &[u8], at: usize) -> u32
    requires { at + 4 ≤ length s.now }
    ensures { result ≡ le (part at 4 s.now) }
{
    u32::from_le_bytes(read_array(s, at))
}

// The number of the 8 bytes at `at`.
pub fn read_u64(s: &[u8], at: usize) -> u64
    requires { at + 8 ≤ length s.now }
    ensures { result ≡ le (part at 8 s.now) }
{
    u64::from_le_bytes(read_array(s, at))
}

// The 2 bytes of x at `at`, and all else as it was.
#[tactic(auto, unfolding(crate::specs::Le::le_bytes))]
pub fn write_u16(out: &mut [u8], at: usize, x: u16)
    requires { at + 2 ≤ length out.old }
    ensures { out.new ≡ put at (le_bytes 2 x) out.old }
{
    write_run(out, at, &u16::to_le_bytes(x));
}

// The 4 bytes of x at `at`, and all else as it was.
#[tactic(auto, unfolding(crate::specs::Le::le_bytes))]
pub fn write_u32(out: &mut [u8], at: usize, x: u32)
    requires { at + 4 ≤ length out.old }
    ensures { out.new ≡ put at (le_bytes 4 x) out.old }
{
    write_run(out, at, &u32::to_le_bytes(x));
}

// The 8 bytes of x at `at`, and all else as it was.
#[tactic(auto, unfolding(crate::specs::Le::le_bytes))]
pub fn write_u64(out: &mut [u8], at: usize, x: u64)
    requires { at + 8 ≤ length out.old }
    ensures { out.new ≡ put at (le_bytes 8 x) out.old }
{
    write_run(out, at, &u64::to_le_bytes(x));
}

// The N bytes at `at`.
pub fn read_array<const N: usize>(s: &[u8], at: usize) -> [u8; N]
    requires { at + N ≤ length s.now }
    ensures { result ≡ part at N s.now }
{
    let mut a = [0u8; N];
    a.copy_from_slice(&s[at..at + N]);
    a
}

// The bytes v at `at`, and all else as it was.
#[tactic(auto, using(crate::proofs::Put::put_mid_lem))]
pub fn write_run(out: &mut [u8], at: usize, v: &[u8])
    requires { at + length v.now ≤ length out.old }
    ensures { out.new ≡ put at v.now out.old }
{
    out[at..at + v.len()].copy_from_slice(v);
}
