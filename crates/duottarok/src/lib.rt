// The calls over a lent image of 4,624 bytes, in place. duottarok_c exports each of them under its name.
// Each call is two functions: one answers a Result, and the public one tells it, as a word and in a lent place.
#![tactic(auto)]

ghost use Rattle.std.specs.Prelude.{◌≡◌};
ghost use Rattle.std.specs.Result.{result_unwrap_or};
ghost use Rattle.error.specs.Numbers.{word_of};
ghost use Rattle.walks_path.specs.Path.{slots_place, length_place};
ghost use Rattle.validation.specs.Validate.{validate_at};
ghost use Rattle.duottarok.specs.Exports.{lookup_at, initialize_at, rotate_at, destroy_at, descendants_at, path_at, count_at, image_after};

use children::MAX_HANDLES;
use error::DpeErrorCode;
use image::state;
use slots::in_place;
use slots::in_place::Image;
use walks::descendants;
use walks_path::Path;

// Whether the table meets the forest rule; else its first fault.
pub fn dpe_validate(image: &[u8]) -> u64
    ensures { result ≡ word_of (validate_at image.now) }
{
    error::word(validation::validate_image(image))
}

fn found(image: &[u8], handle: [u8; handle::SIZE], locality: u32) -> Result<usize, DpeErrorCode>
    ensures { result ≡ lookup_at image.now handle locality }
{
    lookup::get_active_context_pos(in_place::read(image)?, handle, locality)
}

// Finds the active context of a locality that has a handle.
pub fn dpe_lookup(image: &[u8], handle: &[u8; handle::SIZE], locality: u32, slot: &mut u64) -> u64
    ensures value { result ≡ word_of (lookup_at image.now handle.now locality) }
    ensures slot_after { slot.new ≡ result_unwrap_or (lookup_at image.now handle.now locality) slot.old }
{
    tell::number(found(image, *handle, locality), slot)
}

fn initialized(
    image: &mut [u8],
    flags: u32,
    locality: u32,
    candidates: &[u8],
) -> Result<[u8; handle::SIZE], DpeErrorCode>
    ensures value { result ≡ (initialize_at image.old flags locality candidates.now).answer }
    ensures image_after { image.new ≡ image_after (initialize_at image.old flags locality candidates.now) image.old }
{
    state::readable(image)?;
    let table: &mut Image = image.first_chunk_mut().unwrap();
    initialize_context::initialize_on(table, flags, locality, candidates)
}

// Initialises the default context, or a simulation context with a candidate for its handle.
pub fn dpe_initialize_context(
    image: &mut [u8],
    flags: u32,
    locality: u32,
    candidates: &[u8],
    new_handle: &mut [u8; handle::SIZE],
) -> u64
    ensures value { result ≡ word_of (initialize_at image.old flags locality candidates.now).answer }
    ensures image_after { image.new ≡ image_after (initialize_at image.old flags locality candidates.now) image.old }
    ensures new_handle_after { new_handle.new ≡ result_unwrap_or (initialize_at image.old flags locality candidates.now).answer new_handle.old }
{
    tell::found(initialized(image, flags, locality, candidates), new_handle)
}

fn rotated(
    image: &mut [u8],
    handle: [u8; handle::SIZE],
    locality: u32,
    flags: u32,
    candidates: &[u8],
) -> Result<[u8; handle::SIZE], DpeErrorCode>
    ensures value { result ≡ (rotate_at image.old handle locality flags candidates.now).answer }
    ensures image_after { image.new ≡ image_after (rotate_at image.old handle locality flags candidates.now) image.old }
{
    state::readable(image)?;
    let table: &mut Image = image.first_chunk_mut().unwrap();
    rotate_context::rotate_on(table, handle, locality, flags, candidates)
}

// Gives the context with a handle in a locality a new handle: the default one, or a candidate.
pub fn dpe_rotate_context(
    image: &mut [u8],
    handle: &[u8; handle::SIZE],
    locality: u32,
    flags: u32,
    candidates: &[u8],
    new_handle: &mut [u8; handle::SIZE],
) -> u64
    ensures value { result ≡ word_of (rotate_at image.old handle.now locality flags candidates.now).answer }
    ensures image_after { image.new ≡ image_after (rotate_at image.old handle.now locality flags candidates.now) image.old }
    ensures new_handle_after { new_handle.new ≡ result_unwrap_or (rotate_at image.old handle.now locality flags candidates.now).answer new_handle.old }
{
    tell::found(
        rotated(image, *handle, locality, flags, candidates),
        new_handle,
    )
}

fn destroyed(
    image: &mut [u8],
    handle: [u8; handle::SIZE],
    locality: u32,
) -> Result<(), DpeErrorCode>
    ensures value { result ≡ (destroy_at image.old handle locality).answer }
    ensures image_after { image.new ≡ image_after (destroy_at image.old handle locality) image.old }
{
    state::readable(image)?;
    let table: &mut Image = image.first_chunk_mut().unwrap();
    destroy_context::destroy_on(table, handle, locality)
}

// Destroys the context with a handle in a locality, with all below it and the retired run above it.
pub fn dpe_destroy_context(image: &mut [u8], handle: &[u8; handle::SIZE], locality: u32) -> u64
    ensures value { result ≡ word_of (destroy_at image.old handle.now locality).answer }
    ensures image_after { image.new ≡ image_after (destroy_at image.old handle.now locality) image.old }
{
    error::word(destroyed(image, *handle, locality))
}

fn below(image: &[u8], slot: usize) -> Result<u64, DpeErrorCode>
    ensures { result ≡ descendants_at image.now slot }
{
    descendants::get_descendants(in_place::read(image)?, slot)
}

// All that is below a slot, as marks.
pub fn dpe_descendants(image: &[u8], slot: usize, marks: &mut u64) -> u64
    ensures value { result ≡ word_of (descendants_at image.now slot) }
    ensures marks_after { marks.new ≡ result_unwrap_or (descendants_at image.now slot) marks.old }
{
    tell::found(below(image, slot), marks)
}

fn path(image: &[u8], slot: usize) -> Result<Path, DpeErrorCode>
    ensures { result ≡ path_at image.now slot }
{
    walks_path::root_to_leaf(in_place::read(image)?, slot)
}

// The slots from a root down to a slot.
pub fn dpe_path(image: &[u8], slot: usize, slots: &mut [u8; MAX_HANDLES], length: &mut u64) -> u64
    ensures value { result ≡ word_of (path_at image.now slot) }
    ensures slots_after { slots.new ≡ slots_place (path_at image.now slot) slots.old }
    ensures length_after { length.new ≡ length_place (path_at image.now slot) length.old }
{
    match path(image, slot) {
        Ok(p) => {
            let laid = p.slots;
            *slots = laid;
            *length = p.length as u64;
            0
        }
        Err(e) => tell::refused(e),
    }
}

fn counted(image: &[u8], state: u8) -> Result<usize, DpeErrorCode>
    ensures { result ≡ count_at image.now state }
{
    let table = in_place::read(image)?;
    if state >= 3 {
        return Err(DpeErrorCode::InvalidArgument);
    }
    Ok(lookup::find::count_contexts(table, image_context::state_of(state)))
}

// How many contexts are in a state: 0 inactive, 1 active, 2 retired.
pub fn dpe_count(image: &[u8], state: u8, count: &mut u64) -> u64
    ensures value { result ≡ word_of (count_at image.now state) }
    ensures count_after { count.new ≡ result_unwrap_or (count_at image.now state) count.old }
{
    tell::number(counted(image, state), count)
}
