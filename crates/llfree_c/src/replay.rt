//! A fresh memory for one thread is brought into the state of an image: all of it is taken, and each
//! block then stays out, is given back, split, or kept.

ghost use Rattle.std.specs.Prelude.{◌≡◌, ◌≢◌, ◌⊎◌, ℕ, ◌<◌, [], ◌∷◌, ◌++◌, MatchBool, IfOk, IfErr, OnOk, IsTrue};
ghost use Rattle.std.specs.List.{All};
ghost use Rattle.std.specs.List.Sorted.{IsPermutation};
ghost use Rattle.frame_model.specs.Block.{block as block_at};
ghost use Rattle.frame_model.specs.Holding.{holders};
ghost use Rattle.frame_model.specs.QuietTake.{FindsNone};
ghost use Rattle.core_frames.specs.PlainState.{memory_by, held_by};
ghost use Rattle.frame_slots.specs.Claims.{IsHeldAs};
ghost use Rattle.llfree_c.specs.Replays.{StaysMemory, EndsReplay, FollowsImage, HoldsBlock, IsHeldWhole};

use crate::statuses::{CONTENDED, NO_MEMORY};
use core_frames::PlainAllocator;
use frame_core::{FrameBlock, HeldBlock, PlainBlock};
use frame_slots::{MOST_STEPS, is_claimed, is_free, is_held, is_huge};
use frame_words::{CHILD_FRAMES, HUGE_ORDER, TakeFault, child_of};
use std::alloc::Global;

/// Holds just what the image with these numbers holds. Of it the claimed blocks, which ascend, are out then, and
/// all else is kept.
pub(crate) fn replay(
    heap: Global,
    allocator: &mut PlainAllocator,
    numbers: &[u64],
    claimed: &[FrameBlock],
) -> Result<(), u32>
    requires core { 0 < allocator.old.geometry.cores }
    requires nothing { (allocator.old.out ≡ []) × (allocator.old.kept ≡ []) × (allocator.old.ranges ≡ []) }
    requires claimed { All (IsHeldAs allocator.old.geometry.frames numbers.now) claimed.now }
    ensures memory { StaysMemory allocator.old allocator.new }
    ensures out { OnOk result (IsPermutation claimed.now allocator.new.out) }
    ensures follows { OnOk result (FollowsImage numbers.now allocator.new.out allocator.new) }
    ensures err { IfErr result EndsReplay }
{
    let mut pending = Vec::new(heap);
    for less in 0..HUGE_ORDER {
        take_into(allocator, HUGE_ORDER - less, &mut pending)?;
    }
    take_into(allocator, 0, &mut pending)?;
    let mut laid = Vec::new(heap);
    for _step in 0..MOST_STEPS {
        let Some(block) = pending.pop() else {
            break;
        };
        settle(allocator, block, numbers, claimed, &mut pending, &mut laid)?;
    }
    laid.sort_unstable_by_key(|block| block.frame());
    if pending.is_empty() && are_same(&laid, claimed) {
        Ok(())
    } else {
        Err(CONTENDED)
    }
}

// Blocks of the order, until none is free.
fn take_into(
    allocator: &mut PlainAllocator,
    order: u8,
    pending: &mut Vec<PlainBlock>,
) -> Result<(), u32>
    requires core { 0 < allocator.old.geometry.cores }
    requires same { IsPermutation pending.old.items allocator.old.out }
    ensures memory { StaysMemory allocator.old allocator.new }
    ensures kept { allocator.new.kept ≡ allocator.old.kept }
    ensures same { OnOk result (IsPermutation pending.new.items allocator.new.out) }
    ensures none { OnOk result
        (FindsNone (memory_by allocator.new) (held_by allocator.new) (held_by allocator.new) order) }
    ensures err { IfErr result EndsReplay }
{
    for _i in 0..MOST_STEPS {
        match allocator.take(0, order) {
            Ok(block) => {
                let Ok(()) = pending.push(block) else {
                    return Err(NO_MEMORY);
                };
            }
            Err(TakeFault::NoBlock) => return Ok(()),
            Err(_) => return Err(CONTENDED),
        }
    }
    Err(CONTENDED)
}

// A block stays out where it is claimed, is given back where it is free, and is kept where it is held
// as one; else its halves wait for the same.
fn settle(
    allocator: &mut PlainAllocator,
    block: PlainBlock,
    numbers: &[u64],
    claimed: &[FrameBlock],
    pending: &mut Vec<PlainBlock>,
    laid: &mut Vec<PlainBlock>,
) -> Result<(), u32>
    requires core { 0 < allocator.old.geometry.cores }
    requires claimed { All (IsHeldAs allocator.old.geometry.frames numbers.now) claimed.now }
    requires follows { IsPermutation (block ∷ (laid.old.items ++ pending.old.items)) allocator.old.out
        × FollowsImage numbers.now laid.old.items allocator.old }
    ensures memory { StaysMemory allocator.old allocator.new }
    ensures same { OnOk result (IsPermutation (laid.new.items ++ pending.new.items) allocator.new.out) }
    ensures follows { OnOk result (FollowsImage numbers.now laid.new.items allocator.new) }
    ensures err { IfErr result (λ e. e ≡ NO_MEMORY) }
{
    let frame = block.frame();
    let order = block.order();
    if is_claimed(claimed, frame, order) {
        let Ok(()) = laid.push(block) else {
            return Err(NO_MEMORY);
        };
        return Ok(());
    }
    if is_free(numbers, frame, order) {
        allocator.give(0, block);
        return Ok(());
    }
    if is_held_whole(numbers, frame, order) {
        allocator.keep(0, block);
        return Ok(());
    }
    split_into(allocator, block, pending, laid)
}

// Is it held as one, a huge frame or a single one?
fn is_held_whole(numbers: &[u64], frame: u32, order: u8) -> bool
    ensures holds { IsTrue result → HoldsBlock numbers.now (block_at frame order) }
    ensures whole { MatchBool result (IsHeldWhole numbers.now (block_at frame order))
        (¬ IsHeldWhole numbers.now (block_at frame order)) }
{
    if order == HUGE_ORDER {
        frame % CHILD_FRAMES == 0 && is_huge(numbers, child_of(frame))
    } else {
        order == 0 && is_held(numbers, frame)
    }
}

fn split_into(
    allocator: &mut PlainAllocator,
    block: PlainBlock,
    pending: &mut Vec<PlainBlock>,
    laid: &mut Vec<PlainBlock>,
) -> Result<(), u32>
    requires core { 0 < allocator.old.geometry.cores }
    requires same { IsPermutation (block ∷ (laid.old.items ++ pending.old.items)) allocator.old.out }
    ensures memory { StaysMemory allocator.old allocator.new }
    ensures stay { (allocator.new.kept ≡ allocator.old.kept) × (laid.new.items ≡ laid.old.items) }
    ensures held { OnOk result ((x : ℕ) → holders x allocator.new.out ≡ holders x allocator.old.out) }
    ensures same { OnOk result (IsPermutation (laid.new.items ++ pending.new.items) allocator.new.out) }
    ensures err { IfErr result (λ e. e ≡ NO_MEMORY) }
{
    let Ok((lower, upper)) = allocator.split(0, block) else {
        return Err(NO_MEMORY);
    };
    let Ok(()) = pending.push(lower) else {
        return Err(NO_MEMORY);
    };
    let Ok(()) = pending.push(upper) else {
        return Err(NO_MEMORY);
    };
    Ok(())
}

// Are these just those blocks, in this order?
fn are_same(laid: &[PlainBlock], blocks: &[FrameBlock]) -> bool
    ensures { MatchBool result (laid.now ≡ blocks.now) (laid.now ≢ blocks.now) }
{
    if laid.len() != blocks.len() {
        return false;
    }
    for i in 0..laid.len() {
        if laid[i].frame() != blocks[i].frame || laid[i].order() != blocks[i].order {
            return false;
        }
    }
    true
}
