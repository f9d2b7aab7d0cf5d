//! Blocks that an opening is told to hold.

ghost use Rattle.std.specs.Prelude.{◌≡◌, ℕ, ◌+◌, ◌*◌, ◌/◌, ◌^◌, ◌<◌, ◌≤◌, ◌↔◌, MatchBool, IsTrue, false};
ghost use Rattle.std.specs.List.{All, Contains};
ghost use Rattle.frame_slots.specs.Claims.{Ascend, ShareNoFrame, IsOrderedBlock, IsHeldAs};
ghost use Rattle.frame_model.specs.Block.{block as block_at};

use crate::numbers::{are_set, is_huge};
use frame_core::FrameBlock;
use frame_words::{HUGE_ORDER, child_of, frames_of};

/// Does the image of so many frames hold each of the blocks in its own form?
pub fn are_held_as(numbers: &[u64], frames: u32, blocks: &[FrameBlock]) -> bool
    requires { frames < 2 ^ 22 }
    ensures { MatchBool result (All (IsHeldAs frames numbers.now) blocks.now)
        (¬ All (IsHeldAs frames numbers.now) blocks.now) }
{
    for block in blocks {
        if !is_held_as(numbers, frames, block) {
            return false;
        }
    }
    true
}

fn is_held_as(numbers: &[u64], frames: u32, block: &FrameBlock) -> bool
    requires { frames < 2 ^ 22 }
    ensures { MatchBool result (IsHeldAs frames numbers.now block.now)
        (¬ IsHeldAs frames numbers.now block.now) }
{
    if block.order > HUGE_ORDER {
        return false;
    }
    let n = frames_of(block.order);
    if block.frame % n != 0 || n > frames || block.frame > frames - n {
        return false;
    }
    let huge = is_huge(numbers, child_of(block.frame));
    if block.order == HUGE_ORDER {
        return huge;
    }
    if huge {
        return false;
    }
    if !are_set(numbers, block.frame, block.frame + n) {
        return false;
    }
    true
}

/// Does no block begin inside the one before it? Of blocks that ascend none share a frame just then.
pub fn are_apart(blocks: &[FrameBlock]) -> bool
    requires { All IsOrderedBlock blocks.now }
    ensures overlap { result ≡ false → ¬ ShareNoFrame blocks.now }
    ensures apart { IsTrue result → Ascend blocks.now → ShareNoFrame blocks.now }
{
    for i in 1..blocks.len() {
        if begins_inside(&blocks[i - 1], &blocks[i]) {
            return false;
        }
    }
    true
}

// Does the second block begin inside the first?
fn begins_inside(first: &FrameBlock, second: &FrameBlock) -> bool
    requires { IsOrderedBlock first.now }
    ensures { IsTrue result
        ↔ ((first.now.frame ≤ second.now.frame)
        × (second.now.frame < first.now.frame + 2 ^ first.now.order)) }
{
    first.frame <= second.frame && second.frame - first.frame < frames_of(first.order)
}

/// Is this one of the blocks? Where they ascend and share no frame, none is missed.
pub fn is_claimed(blocks: &[FrameBlock], frame: u32, order: u8) -> bool
    ensures claimed { IsTrue result → Contains blocks.now (block_at frame order) }
    ensures unclaimed { result ≡ false → Ascend blocks.now → ShareNoFrame blocks.now
        → ¬ Contains blocks.now (block_at frame order) }
{
    match blocks.binary_search_by_key(&frame, |block| block.frame) {
        Ok(place) => match blocks.get(place) {
            Some(block) => block.frame == frame && block.order == order,
            None => false,
        },
        Err(_) => false,
    }
}
