//! What is free in a memory, taken as a list of blocks.

ghost use Rattle.std.specs.Prelude.{◌≡◌, IfOk, IfErr, vec_len};
ghost use Rattle.std.specs.List.{All};
ghost use Rattle.core_frames.specs.Cores.{IsCoreOf, IsOutOf};
ghost use Rattle.frame_slots.specs.Slots.{HasTakenSoMany, LendsForEach};

use core_frames::{Allocator, Core};
use frame_core::HeldBlock;
use frame_table::Block;
use frame_words::{Fault, HUGE_ORDER, MOST_FRAMES};
use std::alloc::Global;

/// All of it, in blocks as large as there are, of which the first comes last.
pub(crate) fn take_all(
    alloc: Global,
    allocator: &Allocator,
    core: &mut Core,
) -> Result<Vec<Block>, Fault>
    requires { IsCoreOf allocator.now core.old }
    ensures core { IsCoreOf allocator.now core.new }
    ensures out { IfOk result (λ blocks. All (IsOutOf allocator.now) blocks.items) }
    ensures lends { IfOk result (λ blocks. HasTakenSoMany (vec_len blocks) core.old core.new) }
    ensures err { IfErr result (λ e. e ≡ Fault.NoMemory) }
{
    let mut blocks = Vec::new(alloc);
    for less in 0..HUGE_ORDER + 1 {
        take_each(allocator, core, HUGE_ORDER - less, &mut blocks)?;
    }
    blocks.sort_unstable_by_key(|held| held.frame());
    blocks.reverse();
    Ok(blocks)
}

// Blocks of the order, until none is found.
fn take_each(
    allocator: &Allocator,
    core: &mut Core,
    order: u8,
    blocks: &mut Vec<Block>,
) -> Result<(), Fault>
    requires core { IsCoreOf allocator.now core.old }
    requires out { All (IsOutOf allocator.now) blocks.old.items }
    ensures core { IsCoreOf allocator.now core.new }
    ensures out { All (IsOutOf allocator.now) blocks.new.items }
    ensures lends { IfOk result (λ _.
        LendsForEach (vec_len blocks.old) (vec_len blocks.new) core.old core.new) }
    ensures err { IfErr result (λ e. e ≡ Fault.NoMemory) }
{
    for _i in 0..MOST_FRAMES {
        let Ok(held) = allocator.take(core, order) else {
            return Ok(());
        };
        let Ok(()) = blocks.push(held) else {
            return Err(Fault::NoMemory);
        };
    }
    Ok(())
}
