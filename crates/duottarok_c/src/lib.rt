// The calls of duottarok, exported for C. include/duottarok.h says what each asks of its pointers.
#![tactic(auto)]

ghost use Rattle.std.specs.Prelude.{◌≡◌};
ghost use Rattle.std.specs.Result.{result_unwrap_or};
ghost use Rattle.error.specs.Numbers.{word_of};
ghost use Rattle.walks_path.specs.Path.{slots_place, length_place};
ghost use Rattle.validation.specs.Validate.{validate_at};
ghost use Rattle.duottarok.specs.Exports.{lookup_at, initialize_at, rotate_at, destroy_at, descendants_at, path_at, count_at, image_after};

use children::MAX_HANDLES;

// Whether the table meets the forest rule; else its first fault.
#[unsafe(no_mangle)]
pub extern "C" fn dpe_validate(image: &[u8]) -> u64
    ensures { result ≡ word_of (validate_at image.now) }
{
    duottarok::dpe_validate(image)
}

// Finds the active context of a locality that has a handle.
#[unsafe(no_mangle)]
pub extern "C" fn dpe_lookup(
    image: &[u8],
    handle: &[u8; handle::SIZE],
    locality: u32,
    slot: &mut u64,
) -> u64
    ensures value { result ≡ word_of (lookup_at image.now handle.now locality) }
    ensures slot_after { slot.new ≡ result_unwrap_or (lookup_at image.now handle.now locality) slot.old }
{
    duottarok::dpe_lookup(image, handle, locality, slot)
}

// Initialises the default context, or a simulation context with a candidate for its handle.
#[unsafe(no_mangle)]
pub extern "C" fn dpe_initialize_context(
    image: &mut [u8],
    flags: u32,
    locality: u32,
    candidates: &[u8],
    new_handle: &mut [u8; handle::SIZE],
) -> u64
    ensures value { result ≡ word_of (initialize_at image.old flags locality candidates.now).answer }
    ensures image_after { image.new ≡ image_after (initialize_at image.old flags locality candidates.now) image.old }
    ensures new_handle_after { new_handle.new ≡ result_unwrap_or (initialize_at image.old flags locality candidates.now).answer new_handle.old }
{
    duottarok::dpe_initialize_context(image, flags, locality, candidates, new_handle)
}

// Gives the context with a handle in a locality a new handle: the default one, or a candidate.
#[unsafe(no_mangle)]
pub extern "C" fn dpe_rotate_context(
    image: &mut [u8],
    handle: &[u8; handle::SIZE],
    locality: u32,
    flags: u32,
    candidates: &[u8],
    new_handle: &mut [u8; handle::SIZE],
) -> u64
    ensures value { result ≡ word_of (rotate_at image.old handle.now locality flags candidates.now).answer }
    ensures image_after { image.new ≡ image_after (rotate_at image.old handle.now locality flags candidates.now) image.old }
    ensures new_handle_after { new_handle.new ≡ result_unwrap_or (rotate_at image.old handle.now locality flags candidates.now).answer new_handle.old }
{
    duottarok::dpe_rotate_context(image, handle, locality, flags, candidates, new_handle)
}

// Destroys the context with a handle in a locality, with all below it and the retired run above it.
#[unsafe(no_mangle)]
pub extern "C" fn dpe_destroy_context(
    image: &mut [u8],
    handle: &[u8; handle::SIZE],
    locality: u32,
) -> u64
    ensures value { result ≡ word_of (destroy_at image.old handle.now locality).answer }
    ensures image_after { image.new ≡ image_after (destroy_at image.old handle.now locality) image.old }
{
    duottarok::dpe_destroy_context(image, handle, locality)
}

// All that is below a slot, as marks.
#[unsafe(no_mangle)]
pub extern "C" fn dpe_descendants(image: &[u8], slot: usize, marks: &mut u64) -> u64
    ensures value { result ≡ word_of (descendants_at image.now slot) }
    ensures marks_after { marks.new ≡ result_unwrap_or (descendants_at image.now slot) marks.old }
{
    duottarok::dpe_descendants(image, slot, marks)
}

// The slots from a root down to a slot.
#[unsafe(no_mangle)]
pub extern "C" fn dpe_path(
    image: &[u8],
    slot: usize,
    slots: &mut [u8; MAX_HANDLES],
    length: &mut u64,
) -> u64
    ensures value { result ≡ word_of (path_at image.now slot) }
    ensures slots_after { slots.new ≡ slots_place (path_at image.now slot) slots.old }
    ensures length_after { length.new ≡ length_place (path_at image.now slot) length.old }
{
    duottarok::dpe_path(image, slot, slots, length)
}

// How many contexts are in a state: 0 inactive, 1 active, 2 retired.
#[unsafe(no_mangle)]
pub extern "C" fn dpe_count(image: &[u8], state: u8, count: &mut u64) -> u64
    ensures value { result ≡ word_of (count_at image.now state) }
    ensures count_after { count.new ≡ result_unwrap_or (count_at image.now state) count.old }
{
    duottarok::dpe_count(image, state, count)
}
