//! Looks at just one block over any moves.

ghost use Rattle.std.specs.Prelude.{◌≡◌, ◌*◌, ◌/◌, ◌%◌, ◌^◌, ◌≤◌};
ghost use Rattle.frame_words.specs.Runs.{word_bits, word_order};
ghost use Rattle.frame_model.specs.Block.{block};
ghost use Rattle.frame_model.specs.View.{IsIdle};
ghost use Rattle.core_frames.specs.Looks.{LooksAt, Sees, MaySeeWords, IsClearAt, AreClearWords};

use crate::places::lies_within;
use frame_core::{Moves, Place};
use frame_words::{
    CHILD_FRAMES, HUGE_ORDER, WORD_FRAMES, WORD_ORDER, child_of, entry_huge, frames_of, lane, mask,
};

/// The entry of a child of which all frames are free.
const WHOLE: u64 = CHILD_FRAMES as u64;

/// Are all frames of the block of `2^order` frames that begins at `frame` free? False where the memory
/// has no such block. Only loads are made.
pub fn is_free_by<M: Moves>(m: &mut M, frame: u32, order: u8) -> bool
    requires { IsIdle (M.at m.old).view }
    ensures { LooksAt M.tick (block frame order) result (M.at m.old) (M.at m.new) }
{
    if order > HUGE_ORDER {
        return false;
    }
    if !lies_within(m.geometry().frames(), frame, order) {
        return false;
    }
    let child = child_of(frame);
    let entry = lane(m.load(Place::Entry(child)), child);
    if order == HUGE_ORDER {
        return entry == WHOLE;
    }
    if entry_huge(entry) {
        return false;
    }
    if order > WORD_ORDER {
        are_clear(m, frame / WORD_FRAMES, frames_of(order) / WORD_FRAMES)
    } else {
        is_clear(m, frame, order)
    }
}

/// Are the bits of `2^order` frames from `frame` on clear, which stand in one bit word?
fn is_clear<M: Moves>(m: &mut M, frame: u32, order: u8) -> bool
    requires may { MaySeeWords (frame / word_bits) 1 (M.at m.old) }
    requires order { order ≤ word_order }
    requires aligned { frame % 2 ^ order ≡ 0 }
    ensures { Sees M.tick 1 frame (2 ^ order) (IsClearAt (M.at m.old).key frame order) result
        (M.at m.old) (M.at m.new) }
{
    m.load(Place::Bits(frame / WORD_FRAMES)) & mask(order, frame % WORD_FRAMES) == 0
}

/// Are so many bit words, from `first` on, clear?
fn are_clear<M: Moves>(m: &mut M, first: u32, count: u32) -> bool
    requires { MaySeeWords first count (M.at m.old) }
    ensures { Sees M.tick count (word_bits * first) (word_bits * count)
        (AreClearWords (M.at m.old).key first count) result (M.at m.old) (M.at m.new) }
{
    for i in 0..count {
        if m.load(Place::Bits(first + i)) != 0 {
            return false;
        }
    }
    true
}
