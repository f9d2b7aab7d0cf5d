//! One core of all. Nobody else steps then, so what it finds is exact.

ghost use Rattle.std.specs.Prelude.{◌≡◌, ◌≤◌, IfOk, IfErr, vec_len};
ghost use Rattle.std.specs.List.{All};
ghost use Rattle.frame_words.specs.Geometry.{huge_order};
ghost use Rattle.frame_model.specs.Report.{free_frames};
ghost use Rattle.core_frames.specs.Alone.{HasNoneOf};
ghost use Rattle.core_frames.specs.Cores.{memory_of, IsCoreOf, IsSureOf, IsOutOf};
ghost use Rattle.llfree_example.specs.Knowing.{KnowsThat};

use core_frames::{Allocator, Core};
use frame_core::HeldBlock;
use frame_table::Block;
use frame_words::{Fault, Geometry, TakeFault};
use std::alloc::Global;

/// A block, unless none of the order is free. It is never contended.
fn take_alone(allocator: &Allocator, core: &mut Core, order: u8) -> Result<Block, TakeFault>
    requires core { IsCoreOf allocator.now core.old }
    requires sure { IsSureOf allocator.now core.old }
    requires order { order ≤ huge_order }
    ensures core { IsCoreOf allocator.now core.new }
    ensures sure { IsSureOf allocator.now core.new }
    ensures out { IfOk result (IsOutOf allocator.now) }
    ensures why { IfErr result (λ fault. fault ≡ TakeFault.NoBlock) }
    ensures none { IfErr result (λ _. KnowsThat (HasNoneOf (memory_of allocator.now) order) core.new) }
{
    allocator.take(core, order)
}

/// A give leaves the core sure of the words, so that the next take is exact too.
fn take_again(allocator: &Allocator, core: &mut Core, order: u8) -> Result<Block, TakeFault>
    requires core { IsCoreOf allocator.now core.old }
    requires sure { IsSureOf allocator.now core.old }
    requires order { order ≤ huge_order }
    ensures core { IsCoreOf allocator.now core.new }
    ensures sure { IsSureOf allocator.now core.new }
    ensures out { IfOk result (IsOutOf allocator.now) }
    ensures why { IfErr result (λ fault. fault ≡ TakeFault.NoBlock) }
    ensures none { IfErr result (λ _. KnowsThat (HasNoneOf (memory_of allocator.now) order) core.new) }
{
    if let Ok(block) = take_alone(allocator, core, order) {
        allocator.give(core, block);
    }
    take_alone(allocator, core, order)
}

/// A block that was given is free, so that a take of its order is not refused.
fn give_and_take(allocator: &Allocator, core: &mut Core, block: Block) -> Result<Block, TakeFault>
    requires core { IsCoreOf allocator.now core.old }
    requires sure { IsSureOf allocator.now core.old }
    requires block { IsOutOf allocator.now block }
    ensures core { IsCoreOf allocator.now core.new }
    ensures sure { IsSureOf allocator.now core.new }
    ensures out { IfOk result (IsOutOf allocator.now) }
    ensures taken { IfErr result (λ _. ⊥) }
{
    let order = block.order();
    allocator.give(core, block);
    allocator.take(core, order)
}

/// How many frames are free.
fn count_alone(allocator: &Allocator, core: &mut Core) -> u32
    requires core { IsCoreOf allocator.now core.old }
    requires sure { IsSureOf allocator.now core.old }
    ensures core { IsCoreOf allocator.now core.new }
    ensures sure { IsSureOf allocator.now core.new }
    ensures exact { KnowsThat (λ words. result ≡ free_frames (memory_of allocator.now) words) core.new }
{
    allocator.free_frames(core)
}

/// How many frames are free besides a huge frame that one core of all has taken, and the cores again.
/// Where a core is missing they are handed back.
fn free_besides_one(allocator: &Allocator, cores: Vec<Core>) -> Result<(u32, Vec<Core>), Vec<Core>>
    requires { All (IsCoreOf allocator.now) cores.items }
    ensures cores { IfOk result (λ r. All (IsCoreOf allocator.now) r.1.items) }
    ensures count { IfOk result (λ r. vec_len r.1 ≡ (memory_of allocator.now).cores) }
    ensures same { IfErr result (λ same. same ≡ cores) }
{
    let (mut core, room) = allocator.gather(cores)?;
    let taken = take_again(allocator, &mut core, 9);
    let free = count_alone(allocator, &mut core);
    if let Ok(block) = taken {
        if let Ok(block) = give_and_take(allocator, &mut core, block) {
            allocator.give(&mut core, block);
        }
    }
    Ok((free, allocator.scatter(core, room)))
}

/// The same of 4,096 frames and two cores.
pub(crate) fn alone(alloc: Global) -> Result<u32, Fault> {
    let (allocator, cores) = Allocator::open(alloc, Geometry::new(8, 2)?)?;
    match free_besides_one(&allocator, cores) {
        Ok((free, _cores)) => Ok(free),
        Err(_cores) => Err(Fault::MissingCores),
    }
}
