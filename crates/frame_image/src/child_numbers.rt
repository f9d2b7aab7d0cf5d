//! The numbers of a child for a report, block by block: a block is clear where both halves are.

ghost use Rattle.std.specs.Prelude.{◌≡◌, ℕ, ◌+◌, ◌-◌, ◌*◌, ◌<◌, ◌≤◌, ◌/◌, ◌%◌, get_or, min, max, slice_index};
ghost use Rattle.std.specs.Int.{bit_at};
ghost use Rattle.std.specs.List.{sum_by, range_with_len};
ghost use Rattle.frame_words.specs.Geometry.{child_frames, word_frames};
ghost use Rattle.frame_words.specs.Words.{flag};
ghost use Rattle.frame_model.specs.Block.{block};
ghost use Rattle.frame_core.specs.Image.{key_in};
ghost use Rattle.frame_model.specs.Report.{clear_at, clear_within};
ghost use Rattle.frame_image.specs.Tally.{numbers_of};

use frame_core::Image;
use frame_text::child_bits;
use frame_words::{CHILD_FRAMES, WORD_FRAMES};

// The numbers of a record: held, free, and the clear blocks of ten orders.
pub(crate) const NUMBERS: usize = 12;

const ORDERS: usize = 10;

const FRAMES: usize = CHILD_FRAMES as usize;

const WORD: usize = WORD_FRAMES as usize;

// The numbers of a child.
pub(crate) fn count_child(image: &Image, child: u32) -> [u32; NUMBERS]
    requires { child < image.now.geometry.children }
    ensures { result ≡ numbers_of (key_in image.now) image.now.words (child_frames * child) child_frames }
{
    let mut clear = clear_frames(image, child);
    let mut numbers = [0; NUMBERS];
    let mut blocks = FRAMES;
    for order in 0..ORDERS {
        numbers[2 + order] = count_clear(&clear, blocks);
        blocks /= 2;
        halve(&mut clear, blocks);
    }
    let free = numbers[2];
    numbers[1] = free;
    numbers[0] = CHILD_FRAMES - free;
    numbers
}

// 1 for each frame of a child that is not held.
fn clear_frames(image: &Image, child: u32) -> [u8; FRAMES]
    requires { child < image.now.geometry.children }
    ensures { (i : ℕ) → i < child_frames → get_or result i 0
        ≡ clear_at (key_in image.now) image.now.words (block (child_frames * child + i) 0) }
{
    let huge = image.huge(child);
    let bits = child_bits(image, child);
    let mut clear = [0; FRAMES];
    for frame in 0..FRAMES {
        clear[frame] = clear_in(&bits, huge, frame);
    }
    clear
}

// 1 where the frame of a child with these bits is not held.
#[inline]
fn clear_in(bits: &[u64; 8], huge: bool, frame: usize) -> u8
    requires { frame < child_frames }
    ensures { result
        ≡ 1 - max (bit_at (slice_index bits.now (frame / word_frames)) (frame % word_frames)) (flag huge) }
{
    if huge {
        return 0;
    }
    let set = bits[frame / WORD] >> (frame % WORD) & 1;
    1 - set as u8
}

// How many of the first ones are 1.
fn count_clear(clear: &[u8; FRAMES], blocks: usize) -> u32
    requires { blocks ≤ child_frames }
    ensures { result ≡ sum_by (λ i. get_or clear.now i 0) (range_with_len 0 blocks) }
{
    let mut count = 0;
    for block in 0..blocks {
        count += u32::from(clear[block]);
    }
    count
}

// Joins the halves of each block.
fn halve(clear: &mut [u8; FRAMES], blocks: usize)
    requires { 2 * blocks ≤ child_frames }
    ensures { (i : ℕ) → i < blocks → get_or clear.new i 0
        ≡ min (get_or clear.old (2 * i) 0) (get_or clear.old (2 * i + 1) 0) }
{
    for block in 0..blocks {
        clear[block] = clear[2 * block].min(clear[2 * block + 1]);
    }
}
