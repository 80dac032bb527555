// An input read into a lent buffer.
#![tactic(auto)]

ghost use Rattle.std.specs.Prelude.{◌<◌, IfOk, length, take};
ghost use Rattle.std.specs.Io.{ReadsAtMost};
ghost use Rattle.std.specs.Io.KnownBytes.{Consumes, IsAtEnd};

use std::io;
use std::io::Read;

// Fills the buffer from its start, and answers how many bytes came: fewer than there is room for only where the input ends.
pub fn read_full<R: Read>(from: &mut R, buffer: &mut [u8]) -> io::Result<usize>
    ensures in_bounds { ReadsAtMost result buffer.new }
    ensures bytes { IfOk result (λ n. Consumes (R.remaining from.old) (R.remaining from.new) (take n buffer.new)) }
    ensures end { IfOk result (λ n. n < length buffer.new → IsAtEnd (R.remaining from.new)) }
{
    // No `read_exact`: an input may end early, and how many bytes came is the answer.
    let mut n = 0;
    while n < buffer.len() {
        let k = from.read(&mut buffer[n..])?;
        if k == 0 {
            return Ok(n);
        }
        n += k;
    }
    Ok(n)
}
