// The lines of a listing as bytes: each function puts its text into the lent buffer from a place on, and answers the place behind it.
#![tactic(auto)]

ghost use Rattle.std.specs.Prelude.{◌+◌, ◌<◌, ◌≤◌, length};
ghost use Rattle.children.specs.Marks.{slot_count};
ghost use Rattle.text_row.specs.Row.{number_then, verdict_line, row_of, PutAt, number_most, verdict_most, row_most};

use view::SlotFields;

// The most bytes of a number of 32 bits with the byte after it, of the first line, and of a slot's line.
const NUMBER_MOST: usize = 11;

pub const VERDICT_MOST: usize = 8 + 2 * NUMBER_MOST;

pub const ROW_MOST: usize = 6 * NUMBER_MOST;

const SPACE: u8 = b' ';

const NEWLINE: u8 = b'\n';

// A number in decimal, and a byte after it. Bytes into the lent buffer and no Display: `PutAt` says each byte, and there is no heap.
pub fn put_number(out: &mut [u8], at: usize, n: u32, mark: u8) -> usize
    requires { at + number_most ≤ length out.old }
    ensures put_at { PutAt at (number_then n mark) out.old out.new result }
    ensures upper_bound { result ≤ at + number_most }
{
    let mut digits = [0u8; 20];
    let k = io::decimal(n as u64, &mut digits);
    wire::write_run(out, at, &digits[..k]);
    let e = at + k;
    out[e] = mark;
    e + 1
}

// The first line.
pub fn put_verdict(out: &mut [u8], outer: u32, inner: u32) -> usize
    requires { verdict_most ≤ length out.old }
    ensures put_at { PutAt 0 (verdict_line outer inner) out.old out.new result }
    ensures upper_bound { result ≤ verdict_most }
{
    wire::write_run(out, 0, b"verdict ");
    let a = put_number(out, 8, outer, SPACE);
    put_number(out, a, inner, NEWLINE)
}

// The line of a live slot.
pub fn put_row(out: &mut [u8], at: usize, slot: usize, f: SlotFields) -> usize
    requires { (at + row_most ≤ length out.old) × (slot < slot_count) }
    ensures put_at { PutAt at (row_of slot f) out.old out.new result }
    ensures upper_bound { result ≤ at + row_most }
{
    let state = f.state;
    let context_type = f.context_type;
    let parent = f.parent_idx as u32;
    let a = put_number(out, at, slot as u32, SPACE);
    let b = put_number(out, a, image_write::state_byte(state) as u32, SPACE);
    let c = put_number(out, b, image_write::type_byte(context_type) as u32, SPACE);
    let d = put_number(out, c, f.locality, SPACE);
    let e = put_number(out, d, parent, SPACE);
    put_number(out, e, children::count(f.children) as u32, NEWLINE)
}
