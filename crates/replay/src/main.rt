// Replays the published Rust's answers: a fixed list, made by oracle/compare/src/bin/record.rs, on standard input.
//
// A case is a header, the bytes in which its table differs from a new one (3 bytes each: the offset, and the byte), the
// bytes in which the table afterwards differs from that, and the candidates. In the header, numbers little-endian:
// call 0, state 1, count of bytes before 2 and after 4, bytes of candidates 6, locality 8, flags 12, slot 16,
// handle 24; and what the Rust answered: word 40, number 48, handle 56, slots of a path 72.
#![tactic(auto)]

ghost use Rattle.std.specs.Prelude.{◌+◌, ◌<◌, ◌≤◌, length};

use duottarok::{
    dpe_count, dpe_descendants, dpe_destroy_context, dpe_initialize_context, dpe_lookup, dpe_path,
    dpe_rotate_context, dpe_validate,
};
use image::state;
use std::io;
use table::state::State;

const INPUT_SIZE: usize = 262144;

const HEADER_SIZE: usize = 104;

// What stands in a lent place before a call.
const NUMBER: u64 = 0xa5a5_a5a5_5a5a_5a5a;

const HANDLE_BYTE: u8 = 0xc3;

const SLOTS_BYTE: u8 = 0x96;

// The call that a case makes; a byte that names none is the path's.
#[derive(Clone, Copy, Debug, PartialEq, Eq)]
enum Call {
    Validate,
    Lookup,
    Initialize,
    Rotate,
    Destroy,
    Descendants,
    Path,
    Count,
}

impl From<u8> for Call {
    fn from(code: u8) -> Call {
        match code {
            0 => Call::Validate,
            1 => Call::Lookup,
            2 => Call::Initialize,
            3 => Call::Rotate,
            4 => Call::Destroy,
            5 => Call::Descendants,
            7 => Call::Count,
            _ => Call::Path,
        }
    }
}

// The word of a call, and its lent places afterwards.
#[derive(Clone, Copy, Debug)]
struct Answer {
    word: u64,
    number: u64,
    handle: [u8; 16],
    slots: [u8; 32],
}

// How many bytes a case has, and whether the answer was the Rust's.
#[derive(Clone, Copy, Debug)]
struct Case {
    size: usize,
    same: bool,
}

#[derive(Clone, Copy, Debug)]
struct Tally {
    cases: u64,
    differ: u64,
}

// Sets the bytes that a list of changes names.
fn change(image: &mut [u8], changes: &[u8]) {
    for c in changes.chunks_exact(3) {
        let at = usize::from(wire::read_u16(c, 0));
        if at < image.len() {
            image[at] = c[2];
        }
    }
}

// The answer of a call on the image, which a refusal and half of the calls leave as it was.
fn called(call: Call, image: &mut [u8], h: &[u8; HEADER_SIZE], candidates: &[u8]) -> Answer {
    let locality = wire::read_u32(h, 8);
    let flags = wire::read_u32(h, 12);
    let slot = wire::read_u64(h, 16) as usize;
    let handle = wire::read_array(h, 24);
    let mut number = NUMBER;
    let mut new_handle = [HANDLE_BYTE; 16];
    let mut slots = [SLOTS_BYTE; 32];
    let word = match call {
        Call::Validate => dpe_validate(image),
        Call::Lookup => dpe_lookup(image, &handle, locality, &mut number),
        Call::Initialize => {
            dpe_initialize_context(image, flags, locality, candidates, &mut new_handle)
        }
        Call::Rotate => {
            dpe_rotate_context(image, &handle, locality, flags, candidates, &mut new_handle)
        }
        Call::Destroy => dpe_destroy_context(image, &handle, locality),
        Call::Descendants => dpe_descendants(image, slot, &mut number),
        Call::Path => dpe_path(image, slot, &mut slots, &mut number),
        Call::Count => dpe_count(image, h[1], &mut number),
    };
    Answer {
        word,
        number,
        handle: new_handle,
        slots,
    }
}

// Whether an answer is the one that the header holds.
fn agrees(a: Answer, h: &[u8; HEADER_SIZE]) -> bool {
    let handle = a.handle;
    let slots = a.slots;
    let numbers = (a.word == wire::read_u64(h, 40)) & (a.number == wire::read_u64(h, 48));
    numbers & (handle[..] == h[56..72]) & (slots[..] == h[72..104])
}

// Runs a case on its table, and compares the answer and every byte of the table afterwards.
fn run(h: &[u8; HEADER_SIZE], before: &[u8], after: &[u8], candidates: &[u8]) -> bool {
    let mut image = [0u8; state::SIZE];
    image_table::write_state(State::new(0, 0), &mut image).unwrap();
    change(&mut image, before);
    let mut expected = image;
    change(&mut expected, after);
    let a = called(Call::from(h[0]), &mut image, h, candidates);
    agrees(a, h) & (image == expected)
}

// The case that a list starts with. What is cut short differs, and takes the rest.
fn first_case(s: &[u8]) -> Case
    requires { 0 < length s.now }
    ensures { (0 < result.size) × (result.size ≤ length s.now) }
{
    let n = s.len();
    let Some(header) = s.first_chunk::<HEADER_SIZE>() else {
        return Case {
            size: n,
            same: false,
        };
    };
    let h = HEADER_SIZE;
    let a = h + 3 * usize::from(wire::read_u16(s, 2));
    let b = a + 3 * usize::from(wire::read_u16(s, 4));
    let e = b + usize::from(wire::read_u16(s, 6));
    if n < e {
        return Case {
            size: n,
            same: false,
        };
    }
    let same = run(header, &s[h..a], &s[a..b], &s[b..e]);
    Case { size: e, same }
}

// Every case of the list.
fn replay(list: &[u8]) -> Tally {
    let mut cases: u64 = 0;
    let mut differ: u64 = 0;
    // No iterator of slices: each case says how long it is.
    let mut rest = list;
    while !rest.is_empty() {
        let c = first_case(rest);
        rest = &rest[c.size..];
        cases = cases.wrapping_add(1);
        if !c.same {
            differ = differ.wrapping_add(1);
        }
    }
    Tally { cases, differ }
}

fn main(rt: HostRuntime) -> io::Result<()> {
    let mut buffer = [0u8; INPUT_SIZE];
    let n = input::read_full(&mut rt.reader(), &mut buffer)?;
    let t = replay(&buffer[..n]);
    let cases = t.cases;
    let differ = t.differ;
    println!(rt; "{cases} cases, {differ} differ")
}
