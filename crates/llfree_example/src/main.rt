//! A first program: two threads take and give blocks of one memory. Each hands a block back, the two share no
//! frame, and once both are given no frame is held. Then one core of all, a block that survives a stop, and a
//! machine with two nodes and a hole between them.
#![tactic(auto)]

mod missed;
mod nodes;
mod one_core;
mod survivors;

ghost use Rattle.std.specs.Prelude.{◌≡◌, ◌+◌, ◌+ℤ◌, ◌≤◌, ℕ, pos, [], IfOk, IfSome};
ghost use Rattle.std.specs.List.{All};
ghost use Rattle.frame_model.specs.Block.{covers};
ghost use Rattle.frame_table.specs.Seats.{block_in};
ghost use Rattle.core_frames.specs.Cores.{memory_of, kept_by, lent_by};
ghost use Rattle.core_frames.specs.Cores.{IsCoreOf, IsNewCore, IsOutOf, IsOpened};
ghost use Rattle.llfree_example.specs.Memory.{eight_children, blocks_in_hand, HasInHand};

use core_frames::{Allocator, Core};
use frame_image::held_frames;
use frame_table::Block;
use frame_words::{Fault, Geometry};
use missed::nothing_else_is_missed;
use nodes::two_nodes;
use one_core::alone;
use std::alloc::Global;
use std::io;
use std::thread::{Threads, join};
use survivors::survivor;

/// Eight children, 4,096 page frames, and two cores.
fn open(alloc: Global) -> Result<(Allocator, Vec<Core>), Fault>
    ensures { IfOk result (λ r. IsOpened eight_children r.0 r.1.items) }
{
    Allocator::open(alloc, Geometry::new(8, 2)?)
}

fn next_core(allocator: &Allocator, cores: &mut Vec<Core>) -> Option<Core>
    requires { All (IsNewCore allocator.now) cores.old.items }
    ensures core { IfSome result (IsNewCore allocator.now) }
    ensures left { All (IsNewCore allocator.now) cores.new.items }
{
    let _ = allocator;
    cores.pop()
}

/// A thousand blocks of eight frames, one after another, and one more to hand back. Where a take is
/// refused, it is not tried again.
fn work(allocator: &Allocator, mut core: Core) -> (Core, Option<Block>)
    requires { IsNewCore allocator.now core }
    ensures { HasInHand allocator.entry.now result.0 result.1 }
{
    for _i in 0..1000u32 {
        if let Ok(block) = allocator.take(&mut core, 3) {
            allocator.give(&mut core, block);
        }
    }
    match allocator.take(&mut core, 3) {
        Ok(block) => (core, Some(block)),
        Err(_) => (core, None),
    }
}

/// Gives two blocks, of whichever threads. They share no frame.
fn give_both(allocator: &Allocator, core: &mut Core, first: Block, second: Block)
    requires core { IsCoreOf allocator.now core.old }
    requires blocks { IsOutOf allocator.now first × IsOutOf allocator.now second }
    ensures core { IsCoreOf allocator.now core.new }
    ensures kept { kept_by core.new ≡ kept_by core.old }
    ensures lent { lent_by core.new +ℤ pos 2 ≡ lent_by core.old }
    ensures apart { (x : ℕ) → covers (block_in first) x + covers (block_in second) x ≤ 1 }
{
    let (first, second) = allocator.tell_apart(core, first, second);
    allocator.give(core, first);
    allocator.give(core, second);
}

/// Gives what the threads have in hand.
fn give_back(allocator: &Allocator, core: &mut Core, first: Option<Block>, second: Option<Block>)
    requires core { IsCoreOf allocator.now core.old }
    requires first { IfSome first (IsOutOf allocator.now) }
    requires second { IfSome second (IsOutOf allocator.now) }
    ensures core { IsCoreOf allocator.now core.new }
    ensures kept { kept_by core.new ≡ kept_by core.old }
    ensures lent { lent_by core.new +ℤ blocks_in_hand first +ℤ blocks_in_hand second ≡ lent_by core.old }
{
    match (first, second) {
        (Some(first), Some(second)) => give_both(allocator, core, first, second),
        (Some(block), None) | (None, Some(block)) => allocator.give(core, block),
        (None, None) => {}
    }
}

/// How many frames are held once all cores are back, of which none lends or keeps: none.
fn close(alloc: Global, allocator: Allocator, first: Core, second: Core) -> Result<u32, Fault>
    requires memory { memory_of allocator ≡ eight_children }
    requires cores { IsCoreOf allocator first × IsCoreOf allocator second }
    requires kept { (kept_by first ≡ []) × (kept_by second ≡ []) }
    requires lent { lent_by first +ℤ lent_by second ≡ pos 0 }
    ensures { IfOk result (λ held. held ≡ 0) }
{
    let mut cores = Vec::with_capacity(alloc, 2)?;
    cores.push_reserved(first);
    cores.push_reserved(second);
    match allocator.close(alloc, cores) {
        Ok(image) => Ok(held_frames(&image)),
        Err(e) => Err(e.fault),
    }
}

/// How many frames are held once both threads are done: none.
fn run<R: Threads + Sync>(rt: &R, alloc: Global) -> Result<u32, Fault>
    ensures { IfOk result (λ held. held ≡ 0) }
{
    let (allocator, mut cores) = open(alloc)?;
    let first = next_core(&allocator, &mut cores).ok_or(Fault::MissingCores)?;
    let second = next_core(&allocator, &mut cores).ok_or(Fault::MissingCores)?;
    let shared = &allocator;
    let ((mut first, one), (second, other)) = join(
        rt,
        move || -> (Core, Option<Block>)
            requires { IsNewCore shared.now first }
            ensures { HasInHand shared.entry.now result.0 result.1 }
        { work(shared, first) },
        move || -> (Core, Option<Block>)
            requires { IsNewCore shared.now second }
            ensures { HasInHand shared.entry.now result.0 result.1 }
        { work(shared, second) },
    );
    give_back(&allocator, &mut first, one, other);
    close(alloc, allocator, first, second)
}

fn main(rt: HostRuntime) -> io::Result<()> {
    nothing_else_is_missed();
    match run(&rt, rt.alloc()) {
        Ok(held) => println!(rt; "{held} frames are held")?,
        Err(fault) => println!(rt; "{fault}")?,
    }
    match alone(rt.alloc()) {
        Ok(free) => println!(rt; "alone: a huge frame is taken, {free} of 4096 frames are free")?,
        Err(fault) => println!(rt; "{fault}")?,
    }
    match survivor(rt.alloc()) {
        Ok(frame) => println!(rt; "after a stop: the huge frame at {frame} is adopted")?,
        Err(fault) => println!(rt; "{fault}")?,
    }
    match two_nodes(rt.alloc()) {
        Ok(told) => println!(rt;
            "nodes: frames {} and {} are taken, {} are free",
            told.frames.0, told.frames.1, told.free
        ),
        Err(fault) => println!(rt; "{fault}"),
    }
}
