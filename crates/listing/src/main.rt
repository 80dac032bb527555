// Reads one image from standard input, and writes its verdict and its live slots.
#![tactic(auto)]

ghost use Rattle.std.specs.Prelude.{◌<◌, length};
ghost use Rattle.std.specs.Io.{ReadsAtMost};
ghost use Rattle.image.specs.State.{state_size};

use image::state;
use std::io;
use std::io::Read;
use text::LISTING_SIZE;

// One byte more than an image has.
const INPUT_SIZE: usize = state::SIZE + 1;

// Fills the buffer from an input. It has room for more than an image, so that longer input is seen as such.
fn read_input(from: &mut impl Read, buffer: &mut [u8; INPUT_SIZE]) -> io::Result<usize>
    requires { state_size < length buffer.old }
    ensures { ReadsAtMost result buffer.new }
{
    input::read_full(from, buffer)
}

fn main(rt: HostRuntime) -> io::Result<()> {
    let mut buffer = [0u8; INPUT_SIZE];
    let n = read_input(&mut rt.reader(), &mut buffer)?;
    let mut out = [0u8; LISTING_SIZE];
    let k = text::list(&buffer[..n], &mut out);
    rt.write_all(&out[..k])
}
