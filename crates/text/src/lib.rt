// The listing of an image as bytes, line by line: each function puts its text into the lent buffer from a place on, and answers the place behind it.
#![tactic(auto)]

ghost use Rattle.std.specs.Prelude.{◌≡◌, ◌+◌, ◌*◌, ◌<◌, ◌≤◌, length};
ghost use Rattle.io.specs.Counts.{IsPrefixLen};
ghost use Rattle.children.specs.Marks.{slot_count};
ghost use Rattle.wire.specs.Le.{put};
ghost use Rattle.table.specs.State.{contexts_in};
ghost use Rattle.image.specs.State.{state_size, decode_state};
ghost use Rattle.text_row.specs.Row.{PutAt, row_most};
ghost use Rattle.text.specs.Text.{line_of, rows_to, listing_of};

use children::MAX_HANDLES;
use text_row::{ROW_MOST, VERDICT_MOST};
use view::SlotFields;

// The most bytes of a listing.
pub const LISTING_SIZE: usize = VERDICT_MOST + ROW_MOST * MAX_HANDLES;

// The line of a slot, where it is live.
fn put_line(out: &mut [u8], at: usize, slot: usize, f: SlotFields) -> usize
    requires { (at + row_most ≤ length out.old) × (slot < slot_count) }
    ensures put_at { PutAt at (line_of slot f) out.old out.new result }
    ensures upper_bound { result ≤ at + row_most }
{
    let s = f.state;
    if context::is_inactive(s) {
        return at;
    }
    text_row::put_row(out, at, slot, f)
}

// The lines of all slots, upward, read through the view.
fn put_rows(image: &[u8], out: &mut [u8], at: usize) -> usize
    requires { (length image.now ≡ state_size) × (at + row_most * slot_count ≤ length out.old) }
    ensures put_at { PutAt at (rows_to (contexts_in (decode_state image.now)) slot_count) out.old out.new result }
    ensures upper_bound { result ≤ at + row_most * slot_count }
{
    let mut end = at;
    for i in 0..MAX_HANDLES {
        let f = view::slot_fields(image, i);
        end = put_line(out, end, i, f);
    }
    end
}

// The listing of an image. It stands at the start of the buffer, the rest of which stays; the answer is how long it is.
pub fn list(image: &[u8], out: &mut [u8; LISTING_SIZE]) -> usize
    ensures value { result ≡ length (listing_of image.now) }
    ensures out_after { out.new ≡ put 0 (listing_of image.now) out.old }
    ensures prefix_len { IsPrefixLen result out.new }
{
    match validation::validate_image(image) {
        Ok(()) => {
            let a = text_row::put_verdict(out, 0, 0);
            put_rows(image, out, a)
        }
        Err(e) => text_row::put_verdict(out, error::outer(e), error::inner(e)),
    }
}
