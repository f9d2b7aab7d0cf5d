//! A fresh memory is brought into the state of an image: all of it is taken, and each block is then
//! laid down, given back, kept, or split.

ghost use Rattle.std.specs.Prelude.{◌≡◌, [], ◌∷◌, ◌++◌, map, vec_len, IfOk, IfErr, IsTrue};
ghost use Rattle.std.specs.List.{All};
ghost use Rattle.core_frames.specs.Cores.{memory_of, IsCoreOf, IsOutOf};
ghost use Rattle.frame_model.specs.Block.{block as block_at};
ghost use Rattle.frame_slots.specs.Numbers.{IsFreeInImage, AreAllHeld};
ghost use Rattle.frame_slots.specs.Reopenings.{IsNoReplay, IsFollowing, KeepsHeldBeside, MakeUp};
ghost use Rattle.frame_slots.specs.SlotLists.{HasListAndCore, IsListOf};
ghost use Rattle.frame_slots.specs.Slots.{IsUnused, IsUnusedCoreOf, laid_down};
ghost use Rattle.frame_slots.specs.Reopenings.{HasFoundNone, HasHalved, HasLaid, LendsJust, waiting_blocks};

use crate::claims::is_claimed;
use crate::numbers::{is_free, is_held_whole};
use crate::receipt::Receipt;
use crate::slots::SlotList;
use core_frames::{Allocator, Core};
use frame_core::{FrameBlock, HeldBlock};
use frame_table::Block;
use frame_words::{Fault, HUGE_ORDER, MOST_FRAMES, TakeFault, frames_of};
use std::alloc::Global;

/// More steps than a replay has: a memory has fewer frames, and fewer blocks on the way to them.
pub const MOST_STEPS: u32 = 2 * MOST_FRAMES;

// What an image says of a block.
#[derive(Drop)]
enum BlockUse {
    Claimed,
    Free,
    Held,
    // Its halves may differ.
    Mixed,
}

impl SlotList {
    /// A fresh memory of so many frames holds what the image with these numbers holds. The claimed blocks,
    /// which ascend, are laid down at their slots; all else that is held the core keeps. Refused for want of
    /// memory; or as `Contended` where a claimed block is not held by itself, or some block was not found.
    pub fn replay(
        &self,
        alloc: Global,
        allocator: &Allocator,
        core: &mut Core,
        frames: u32,
        numbers: &[u64],
        claimed: &[FrameBlock],
    ) -> Result<Vec<Receipt>, Fault>
        requires slots { IsListOf allocator.now self.now }
        requires frames { frames ≡ (memory_of allocator.now).frames }
        requires core { IsUnusedCoreOf allocator.now core.old }
        ensures core { IsCoreOf allocator.now core.new }
        ensures laid { IfOk result (λ receipts. map laid_down receipts.items ≡ claimed.now) }
        ensures rest { IfOk result (λ _. KeepsHeldBeside (memory_of allocator.now).frames numbers.now claimed.now core.new) }
        ensures err { IfErr result IsNoReplay }
    {
        let mut pending = take_all(alloc, allocator, core, frames)?;
        let mut receipts = Vec::new(alloc);
        for _step in 0..MOST_STEPS {
            let Some(held) = pending.pop() else {
                break;
            };
            settle(
                allocator,
                self,
                core,
                held,
                numbers,
                claimed,
                &mut pending,
                &mut receipts,
            )?;
        }
        receipts.sort_unstable_by_key(|receipt| receipt.frame());
        if pending.is_empty() && are_for(&receipts, claimed) {
            Ok(receipts)
        } else {
            Err(Fault::Contended)
        }
    }
}

// All frames of the memory, in blocks of which the first comes last.
fn take_all(
    alloc: Global,
    allocator: &Allocator,
    core: &mut Core,
    frames: u32,
) -> Result<Vec<Block>, Fault>
    requires core { IsCoreOf allocator.now core.old }
    requires unused { IsUnused core.old }
    ensures core { IsCoreOf allocator.now core.new }
    ensures out { IfOk result (λ blocks. All (IsOutOf allocator.now) blocks.items) }
    ensures lends { IfOk result (λ blocks. LendsJust (vec_len blocks) core.new) }
    ensures all { IfOk result (λ blocks. MakeUp frames (waiting_blocks blocks.items)) }
    ensures err { IfErr result IsNoReplay }
{
    let mut pending = Vec::new(alloc);
    for less in 0..HUGE_ORDER + 1 {
        take_into(allocator, core, HUGE_ORDER - less, &mut pending)?;
    }
    pending.sort_unstable_by_key(|held| held.frame());
    if !make_up(allocator, &pending, frames) {
        return Err(Fault::Contended);
    }
    pending.reverse();
    Ok(pending)
}

// Blocks of the order, until none is found.
fn take_into(
    allocator: &Allocator,
    core: &mut Core,
    order: u8,
    pending: &mut Vec<Block>,
) -> Result<(), Fault>
    requires core { IsCoreOf allocator.now core.old }
    requires out { All (IsOutOf allocator.now) pending.old.items }
    requires lends { LendsJust (vec_len pending.old) core.old }
    ensures core { IsCoreOf allocator.now core.new }
    ensures out { All (IsOutOf allocator.now) pending.new.items }
    ensures lends { IfOk result (λ _. LendsJust (vec_len pending.new) core.new
        × HasFoundNone allocator.now order core.new) }
    ensures err { IfErr result IsNoReplay }
{
    for _i in 0..MOST_STEPS {
        match allocator.take(core, order) {
            Ok(held) => push_onto(allocator, pending, held)?,
            Err(TakeFault::NoBlock) => return Ok(()),
            Err(_) => return Err(Fault::Contended),
        }
    }
    Err(Fault::Contended)
}

fn push_onto(allocator: &Allocator, pending: &mut Vec<Block>, held: Block) -> Result<(), Fault>
    requires held { IsOutOf allocator.now held }
    requires out { All (IsOutOf allocator.now) pending.old.items }
    ensures out { All (IsOutOf allocator.now) pending.new.items }
    ensures pushed { IfOk result (λ _. pending.new.items ≡ pending.old.items ++ held ∷ []) }
    ensures err { IfErr result (λ e. e ≡ Fault.NoMemory) }
{
    let _ = allocator;
    let Ok(()) = pending.push(held) else {
        return Err(Fault::NoMemory);
    };
    Ok(())
}

// Does each of the blocks begin where the one before it ended, from 0 up to this frame?
fn make_up(allocator: &Allocator, blocks: &[Block], frames: u32) -> bool
    requires { All (IsOutOf allocator.now) blocks.now }
    ensures { IsTrue result → MakeUp frames (waiting_blocks blocks.now) }
{
    let _ = allocator;
    let mut end = 0;
    for held in blocks {
        if held.frame() != end {
            return false;
        }
        let Some(next) = end.checked_add(frames_of(held.order())) else {
            return false;
        };
        end = next;
    }
    end == frames
}

// A block is laid down where it is claimed, given back where it is free, and kept where it is held
// as one; else its halves wait for the same.
fn settle(
    allocator: &Allocator,
    slots: &SlotList,
    core: &mut Core,
    held: Block,
    numbers: &[u64],
    claimed: &[FrameBlock],
    pending: &mut Vec<Block>,
    receipts: &mut Vec<Receipt>,
) -> Result<(), Fault>
    requires both { HasListAndCore allocator.now slots.now core.old }
    requires out { IsOutOf allocator.now held
        × All (IsOutOf allocator.now) pending.old.items }
    requires follows { IsFollowing (memory_of allocator.now).frames numbers.now (held ∷ pending.old.items)
        receipts.old.items core.old }
    ensures core { IsCoreOf allocator.now core.new }
    ensures out { All (IsOutOf allocator.now) pending.new.items }
    ensures follows { IfOk result (λ _. IsFollowing (memory_of allocator.now).frames numbers.now pending.new.items
        receipts.new.items core.new) }
    ensures err { IfErr result IsNoReplay }
{
    match use_of(numbers, claimed, held.frame(), held.order()) {
        BlockUse::Claimed => lay_claimed(allocator, slots, core, held, receipts),
        BlockUse::Free => {
            allocator.give(core, held);
            Ok(())
        }
        BlockUse::Held => {
            allocator.keep(core, held);
            Ok(())
        }
        BlockUse::Mixed => split_into(allocator, core, held, pending),
    }
}

fn use_of(numbers: &[u64], claimed: &[FrameBlock], frame: u32, order: u8) -> BlockUse
    ensures free { result ≡ BlockUse.Free → IsFreeInImage numbers.now (block_at frame order) }
    ensures held { result ≡ BlockUse.Held → AreAllHeld numbers.now (block_at frame order) }
{
    if is_claimed(claimed, frame, order) {
        return BlockUse::Claimed;
    }
    if is_free(numbers, frame, order) {
        return BlockUse::Free;
    }
    if is_held_whole(numbers, frame, order) {
        return BlockUse::Held;
    }
    BlockUse::Mixed
}

fn lay_claimed(
    allocator: &Allocator,
    slots: &SlotList,
    core: &mut Core,
    held: Block,
    receipts: &mut Vec<Receipt>,
) -> Result<(), Fault>
    requires slots { IsListOf allocator.now slots.now }
    requires core { IsCoreOf allocator.now core.old }
    requires held { IsOutOf allocator.now held }
    ensures core { IsCoreOf allocator.now core.new }
    ensures laid { IfOk result (λ _. HasLaid held receipts.old.items receipts.new.items
        core.old core.new) }
    ensures err { IfErr result IsNoReplay }
{
    let Some(receipt) = slots.lay_down(allocator, core, held) else {
        return Err(Fault::Contended);
    };
    let Ok(()) = receipts.push(receipt) else {
        return Err(Fault::NoMemory);
    };
    Ok(())
}

// A single frame has no halves.
fn split_into(
    allocator: &Allocator,
    core: &mut Core,
    held: Block,
    pending: &mut Vec<Block>,
) -> Result<(), Fault>
    requires core { IsCoreOf allocator.now core.old }
    requires held { IsOutOf allocator.now held }
    requires out { All (IsOutOf allocator.now) pending.old.items }
    ensures core { IsCoreOf allocator.now core.new }
    ensures out { All (IsOutOf allocator.now) pending.new.items }
    ensures split { IfOk result (λ _. HasHalved allocator.now held pending.old.items pending.new.items
        core.old core.new) }
    ensures err { IfErr result IsNoReplay }
{
    let Ok((lower, upper)) = allocator.split(core, held) else {
        return Err(Fault::Contended);
    };
    push_onto(allocator, pending, lower)?;
    push_onto(allocator, pending, upper)?;
    Ok(())
}

// Are the receipts those of just these blocks, in this order?
fn are_for(receipts: &[Receipt], blocks: &[FrameBlock]) -> bool
    ensures { IsTrue result → map laid_down receipts.now ≡ blocks.now }
{
    if receipts.len() != blocks.len() {
        return false;
    }
    for i in 0..receipts.len() {
        let laid = receipts[i].block();
        if laid.frame != blocks[i].frame || laid.order != blocks[i].order {
            return false;
        }
    }
    true
}
