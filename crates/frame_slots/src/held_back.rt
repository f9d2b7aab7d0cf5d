//! Which places are those of blocks with a frame that an opening holds back.

ghost use Rattle.std.specs.Prelude.{◌≡◌, ℕ, ◌+◌, ◌%◌, ◌^◌, ◌≤◌, IsTrue};
ghost use Rattle.frame_words.specs.Geometry.{huge_order};
ghost use Rattle.frame_slots.specs.SlotLists.{place_for, MeetsRanges};

use frame_words::{HUGE_ORDER, frames_of};

/// Has each block of so many frames whose place this is a frame in one of the ranges? There is at most
/// one; a block that ends beyond these frames is none.
pub(crate) fn is_held_back(frames: u32, ranges: &[(u32, u32)], place: usize) -> bool
    ensures { IsTrue result → (frame order : ℕ) → order ≤ huge_order → frame % 2 ^ order ≡ 0
        → place_for frame order ≡ place → frame + 2 ^ order ≤ frames → MeetsRanges ranges.now frame order }
{
    // A block's middle frame stands at half its place.
    if meet(ranges, place / 2, 0) {
        return true;
    }
    for order in 0..HUGE_ORDER + 1 {
        if !is_held_back_of(frames, ranges, place, order) {
            return false;
        }
    }
    true
}

// The same of a block of this order.
fn is_held_back_of(frames: u32, ranges: &[(u32, u32)], place: usize, order: u8) -> bool
    requires { order ≤ huge_order }
    ensures { IsTrue result → (frame : ℕ) → frame % 2 ^ order ≡ 0 → place_for frame order ≡ place
        → frame + 2 ^ order ≤ frames → MeetsRanges ranges.now frame order }
{
    let size = frames_of(order) as usize;
    let frame = place.saturating_sub(size - 1) / 2;
    if 2 * frame + (size - 1) != place {
        return true;
    }
    if frame % size != 0 {
        return true;
    }
    if frame + size > frames as usize {
        return true;
    }
    meet(ranges, frame, order)
}

// Has the block a frame in one of the ranges? Of ranges that ascend none is missed.
fn meet(ranges: &[(u32, u32)], frame: usize, order: u8) -> bool
    requires { order ≤ huge_order }
    ensures { IsTrue result → MeetsRanges ranges.now frame order }
{
    let mut low = 0;
    let mut high = ranges.len();
    while low < high {
        let middle = low + (high - low) / 2;
        let (first, frames) = ranges[middle];
        if u64::from(first) + u64::from(frames) <= frame as u64 {
            low = middle + 1;
        } else {
            high = middle;
        }
    }
    if low >= ranges.len() {
        return false;
    }
    let (first, frames) = ranges[low];
    let inside = u64::from(first).max(frame as u64);
    if inside >= u64::from(first) + u64::from(frames) {
        return false;
    }
    if inside - (frame as u64) >= u64::from(frames_of(order)) {
        return false;
    }
    true
}
