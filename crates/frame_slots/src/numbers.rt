//! The numbers of an image that was left: nine for each child, its entry and its eight bit words.

ghost use Rattle.std.specs.Prelude.{◌≡◌, ℕ, ◌+◌, ◌*◌, ◌/◌, ◌^◌, ◌<◌, ◌≤◌, ◌↔◌, MatchBool, IsTrue, slice_index};
ghost use Rattle.frame_model.specs.Block.{block as block_at};
ghost use Rattle.frame_slots.specs.Numbers.{image_bit, most_frames, IsEntry, IsChildOf, IsFreeInImage, IsHeldBy, AreAllHeld, IsHugeIn, IsImageOf};

use frame_words::{CHILD_FRAMES, CHILD_WORDS, FLAG, HUGE_ORDER, WORD_FRAMES, child_of, frames_of};

/// The numbers of a child in an image: its entry and its bit words.
pub const CHILD_NUMBERS: usize = 1 + CHILD_WORDS as usize;

// A number that is not there is 0.
fn number_at(numbers: &[u64], place: usize) -> u64
    ensures { result ≡ slice_index numbers.now place }
{
    if place < numbers.len() {
        numbers[place]
    } else {
        0
    }
}

/// Are these the numbers of an image of so many frames? Whatever its entries count as free.
pub fn is_image(numbers: &[u64], frames: u32) -> bool
    requires { frames ≤ most_frames }
    ensures { MatchBool result (IsImageOf frames numbers.now) (¬ IsImageOf frames numbers.now) }
{
    let children = frames.div_ceil(CHILD_FRAMES);
    if numbers.len() != CHILD_NUMBERS * children as usize {
        return false;
    }
    for child in 0..children {
        if !is_child(numbers, frames, child) {
            return false;
        }
    }
    if !are_set(numbers, frames, CHILD_FRAMES * children) {
        return false;
    }
    true
}

// Is there such an entry, and is just a whole child a huge frame?
fn is_child(numbers: &[u64], frames: u32, child: u32) -> bool
    requires { child < 4096 }
    ensures { MatchBool result (IsChildOf frames numbers.now child) (¬ IsChildOf frames numbers.now child) }
{
    let entry = number_at(numbers, CHILD_NUMBERS * child as usize);
    entry < 2 * FLAG
        && entry % FLAG <= CHILD_FRAMES as u64
        && (entry < FLAG || CHILD_FRAMES * (child + 1) <= frames)
}

/// Is the child held as one block of order 9?
pub fn is_huge(numbers: &[u64], child: u32) -> bool
    ensures { IsTrue result ↔ IsHugeIn numbers.now child }
{
    number_at(numbers, CHILD_NUMBERS * child as usize) >= FLAG
}

/// Is the bit of the frame set?
pub(crate) fn is_set(numbers: &[u64], frame: u32) -> bool
    ensures { IsTrue result ↔ (image_bit numbers.now frame ≡ 1) }
{
    let child = child_of(frame);
    let place = frame % CHILD_FRAMES;
    let word = CHILD_NUMBERS * child as usize + 1 + (place / WORD_FRAMES) as usize;
    (number_at(numbers, word) >> (frame % WORD_FRAMES)) & 1 == 1
}

/// Is the frame held, by itself or in a huge frame?
pub fn is_held(numbers: &[u64], frame: u32) -> bool
    ensures { IsTrue result ↔ IsHeldBy numbers.now frame }
{
    is_huge(numbers, child_of(frame)) || is_set(numbers, frame)
}

/// Are the bits of the frames from one to before another set?
pub(crate) fn are_set(numbers: &[u64], from: u32, end: u32) -> bool
    ensures { MatchBool result
        ((x : ℕ) → from ≤ x → x < end → image_bit numbers.now x ≡ 1)
        (¬ ((x : ℕ) → from ≤ x → x < end → image_bit numbers.now x ≡ 1)) }
{
    for x in from..end {
        if !is_set(numbers, x) {
            return false;
        }
    }
    true
}

/// Is there such a block, whose frames are numbers of 32 bits, and is none of them held?
pub fn is_free(numbers: &[u64], frame: u32, order: u8) -> bool
    ensures { MatchBool result (IsFreeInImage numbers.now (block_at frame order))
        (¬ IsFreeInImage numbers.now (block_at frame order)) }
{
    if order > HUGE_ORDER {
        return false;
    }
    let Some(end) = frame.checked_add(frames_of(order)) else {
        return false;
    };
    are_free(numbers, frame, end)
}

// Is no frame from one to before another held?
fn are_free(numbers: &[u64], from: u32, end: u32) -> bool
    ensures { MatchBool result
        ((x : ℕ) → from ≤ x → x < end → ¬ IsHeldBy numbers.now x)
        (¬ ((x : ℕ) → from ≤ x → x < end → ¬ IsHeldBy numbers.now x)) }
{
    for x in from..end {
        if is_held(numbers, x) {
            return false;
        }
    }
    true
}

/// Is it held as one, a huge frame or a single one?
pub(crate) fn is_held_whole(numbers: &[u64], frame: u32, order: u8) -> bool
    ensures { IsTrue result → AreAllHeld numbers.now (block_at frame order) }
{
    if order == HUGE_ORDER {
        frame % CHILD_FRAMES == 0 && is_huge(numbers, child_of(frame))
    } else {
        order == 0 && is_held(numbers, frame)
    }
}
