//! The shared allocator, each call with ample memory.

ghost use Rattle.std.specs.Prelude.{IfSome};
ghost use Rattle.std.specs.List.{All};
ghost use Rattle.core_frames.specs.Cores.{IsCoreOf, IsOutOf};

use super::cores::{block, close_two, open_for_two};
use core_frames::{Allocator, CloseFault, Core};
use frame_core::{HeldBlock, Image};
use frame_table::Block;
use frame_words::{Fault, Geometry, TakeFault};
use std::process::Abort;
use std::test::Fail;

// The last core of a list.
fn next_core(allocator: &Allocator, cores: &mut Vec<Core>) -> Option<Core>
    requires { All (IsCoreOf allocator.now) cores.old.items }
    ensures core { IfSome result (IsCoreOf allocator.now) }
    ensures left { All (IsCoreOf allocator.now) cores.new.items }
{
    let _ = allocator;
    cores.pop()
}

#[test]
fn closing_wants_each_core(rt: HostRuntime) -> Result<(), Fail> {
    let (allocator, first, last) = open_for_two(rt.alloc(), 1)?;
    assert!(rt; (first.number(), last.number()) == (0, 1));
    let mut cores = Vec::with_capacity(rt.alloc(), 1)?;
    cores.push_reserved(first);
    let Err(
        CloseFault {
            fault,
            allocator,
            cores,
        },
    ) = allocator.close(rt.alloc(), cores)
    else {
        panic!(rt; "it closed without a core");
    };
    assert!(rt; fault == Fault::MissingCores);
    let mut cores = cores;
    let first = next_core(&allocator, &mut cores).ok_or("a core")?;
    let image = close_two(rt.alloc(), allocator, first, last)?;
    let fresh = Image::new(rt.alloc(), &Geometry::new(1, 2)?)?;
    assert!(rt; image.words() == fresh.words());
    Ok(())
}

// Asks for a block that is refused.
fn is_refused(
    rt: &impl Abort,
    allocator: &Allocator,
    core: &mut Core,
    order: u8,
    refusal: TakeFault,
)
    requires { IsCoreOf allocator.now core.old }
    ensures { IsCoreOf allocator.now core.new }
{
    assert!(rt; allocator.take(core, order).err() == Some(refusal));
}

// The halves of a block.
fn halves(rt: &impl Abort, allocator: &Allocator, core: &mut Core, block: Block) -> (Block, Block)
    requires core { IsCoreOf allocator.now core.old }
    requires block { IsOutOf allocator.now block }
    ensures core { IsCoreOf allocator.now core.new }
    ensures lower { IsOutOf allocator.now result.0 }
    ensures upper { IsOutOf allocator.now result.1 }
{
    let Ok(both) = allocator.split(core, block) else {
        panic!(rt; "it has halves");
    };
    both
}

// The lower half of a huge frame, of which the upper half is given.
fn lower_half(rt: &impl Abort, allocator: &Allocator, core: &mut Core, block: Block) -> Block
    requires core { IsCoreOf allocator.now core.old }
    requires block { IsOutOf allocator.now block }
    ensures core { IsCoreOf allocator.now core.new }
    ensures lower { IsOutOf allocator.now result }
{
    let (low, high) = halves(rt, allocator, core, block);
    assert!(rt; (low.frame(), low.order()) == (0, 8));
    assert!(rt; (high.frame(), high.order()) == (256, 8));
    allocator.give(core, high);
    low
}

// The upper half of that half, of which the lower half is given.
fn upper_half(rt: &impl Abort, allocator: &Allocator, core: &mut Core, block: Block) -> Block
    requires core { IsCoreOf allocator.now core.old }
    requires block { IsOutOf allocator.now block }
    ensures core { IsCoreOf allocator.now core.new }
    ensures upper { IsOutOf allocator.now result }
{
    let (low, high) = halves(rt, allocator, core, block);
    assert!(rt; (high.frame(), high.order()) == (128, 7));
    allocator.give(core, low);
    high
}

// Asks for the halves of a frame, which stays held.
fn has_no_halves(rt: &impl Abort, allocator: &Allocator, core: &mut Core)
    requires { IsCoreOf allocator.now core.old }
    ensures { IsCoreOf allocator.now core.new }
{
    let one = block(rt, allocator, core, 0);
    let Err(one) = allocator.split(core, one) else {
        panic!(rt; "a frame has no halves");
    };
    assert!(rt; (one.frame(), one.order()) == (0, 0));
}

// The block, kept and handed out again.
fn recalled(allocator: &Allocator, core: &mut Core, block: Block) -> Block
    requires core { IsCoreOf allocator.now core.old }
    requires block { IsOutOf allocator.now block }
    ensures core { IsCoreOf allocator.now core.new }
    ensures block { IsOutOf allocator.now result }
{
    let (frame, order) = allocator.keep(core, block);
    allocator.recall(core, frame, order)
}

#[test]
fn a_huge_frame_is_split_to_the_end(rt: HostRuntime) -> Result<(), Fail> {
    let (allocator, mut first, mut second) = open_for_two(rt.alloc(), 1)?;
    let huge = block(&rt, &allocator, &mut first, 9);
    is_refused(&rt, &allocator, &mut second, 0, TakeFault::NoBlock);
    is_refused(&rt, &allocator, &mut second, 10, TakeFault::BadOrder);
    let low = lower_half(&rt, &allocator, &mut second, huge);
    let high = upper_half(&rt, &allocator, &mut first, low);
    let high = recalled(&allocator, &mut first, high);
    assert!(rt; allocator.keep(&mut second, high) == (128, 7));
    has_no_halves(&rt, &allocator, &mut first);
    let image = close_two(rt.alloc(), allocator, first, second)?;
    assert!(rt; (image.free(0), image.huge(0)) == (383, false));
    assert!(rt; (image.word(0, 0), image.word(0, 2)) == (1, u64::MAX));
    Ok(())
}

// The block of the order at this frame.
fn block_at(rt: &impl Abort, allocator: &Allocator, core: &mut Core, frame: u32, order: u8) -> Block
    requires { IsCoreOf allocator.now core.old }
    ensures core { IsCoreOf allocator.now core.new }
    ensures block { IsOutOf allocator.now result }
{
    let Ok(block) = allocator.take_at(core, frame, order) else {
        panic!(rt; "it is free");
    };
    block
}

// Asks for a block of which a frame is held.
fn is_held_at(rt: &impl Abort, allocator: &Allocator, core: &mut Core, frame: u32, order: u8)
    requires { IsCoreOf allocator.now core.old }
    ensures { IsCoreOf allocator.now core.new }
{
    let answer = allocator.take_at(core, frame, order);
    assert!(rt; answer.err() == Some(TakeFault::NoBlock));
}

// What rests with another core is no hindrance.
#[test]
fn each_core_takes_at_a_place(rt: HostRuntime) -> Result<(), Fail> {
    let (allocator, mut first, mut second) = open_for_two(rt.alloc(), 1)?;
    let _lowest = block(&rt, &allocator, &mut first, 0);
    let frame = block_at(&rt, &allocator, &mut second, 7, 0);
    assert!(rt; (frame.frame(), frame.order()) == (7, 0));
    is_held_at(&rt, &allocator, &mut first, 0, 3);
    is_held_at(&rt, &allocator, &mut second, 0, 9);
    let eight = block_at(&rt, &allocator, &mut first, 8, 3);
    assert!(rt; (eight.frame(), eight.order()) == (8, 3));
    allocator.give(&mut second, eight);
    let image = close_two(rt.alloc(), allocator, first, second)?;
    assert!(rt; (image.free(0), image.word(0, 0)) == (510, 129));
    Ok(())
}

#[test]
fn one_core_of_all_keeps_what_they_kept(rt: HostRuntime) -> Result<(), Fail> {
    let (allocator, mut first, mut second) = open_for_two(rt.alloc(), 8)?;
    let huge = block(&rt, &allocator, &mut first, 9);
    allocator.keep(&mut second, huge);
    let mut cores = Vec::with_capacity(rt.alloc(), 2)?;
    cores.push_reserved(first);
    cores.push_reserved(second);
    let Ok((mut core, room)) = allocator.gather(cores) else {
        panic!(rt; "a core is missing");
    };
    assert!(rt; (core.number(), room.len()) == (1, 0));
    assert!(rt; allocator.free_frames(&mut core) == 3584);
    assert!(rt; allocator.free_huge(&mut core) == 7);
    let cores = allocator.scatter(core, room);
    assert!(rt; cores.len() == 2);
    let Ok(image) = allocator.close(rt.alloc(), cores) else {
        panic!(rt; "a core is missing");
    };
    assert!(rt; (image.free(0), image.huge(0)) == (0, true));
    Ok(())
}

#[test]
fn gathering_wants_each_core(rt: HostRuntime) -> Result<(), Fail> {
    let (allocator, first, _second) = open_for_two(rt.alloc(), 1)?;
    let mut cores = Vec::with_capacity(rt.alloc(), 1)?;
    cores.push_reserved(first);
    let Err(cores) = allocator.gather(cores) else {
        panic!(rt; "it gathered without a core");
    };
    assert!(rt; cores.len() == 1);
    Ok(())
}
