//! One trial: the threads, their stamps, and what was found.

ghost use Rattle.std.specs.Prelude.{◌≡◌};
ghost use Rattle.std.specs.List.{All};
ghost use Rattle.core_frames.specs.Cores.{IsCoreOf, IsOutOf};

use super::held::unlike;
use core_frames::{Allocator, Core};
use frame_core::HeldBlock;
use frame_table::Block;
use frame_words::Geometry;
use std::alloc::Global;
use std::rt::Clock;
use std::sync::atomic::{AtomicU64, Ordering};
use std::thread::Threads;
use std::time::{Duration, Instant};
use std::{io, thread};

/// Words of eight bytes in a page frame.
pub const FRAME_WORDS: usize = 512;

// The steps of a thread between two looks at the clock.
const STEPS: u32 = 1_000;

const MOST_BLOCKS: usize = 200;

/// How long, and on which memory.
#[derive(Clone, Copy)]
pub struct Plan {
    pub seconds: u32,
    pub geometry: Geometry,
}

/// What a trial saw.
#[derive(Clone, Copy)]
pub struct Found {
    /// Frames that had another stamp than that of who held them.
    pub wrong: u64,
    /// Frames that are held with no stamp, or stamped and not held, at the end.
    pub lost: u64,
    pub takes: u64,
    pub refused: u64,
}

// A memory of real page frames, and what its threads count.
#[derive(Clone, Copy)]
struct Stamps<'a> {
    memory: &'a [AtomicU64],
    wrong: &'a AtomicU64,
    takes: &'a AtomicU64,
    refused: &'a AtomicU64,
}

// Numbers that look random, but for 0.
fn next(seed: u64) -> u64 {
    let a = seed ^ (seed << 13);
    let b = a ^ (a >> 7);
    b ^ (b << 17)
}

// No two blocks have the same, and none has 0.
fn stamp_of(block: &Block) -> u64 {
    u64::from(block.frame()) * 256 + u64::from(block.order()) + 1
}

// Each frame of the block gets a stamp in place of another; those that had neither are counted.
fn stamp(stamps: &Stamps, block: &Block, old: u64, new: u64) {
    let first = block.frame() as usize;
    for i in 0..1usize.wrapping_shl(u32::from(block.order())) {
        let place = first.wrapping_add(i).wrapping_mul(FRAME_WORDS);
        let found = match stamps.memory.get(place) {
            Some(word) => word.swap(new, Ordering::SeqCst),
            None => !old,
        };
        if found != old {
            stamps.wrong.fetch_add(1, Ordering::SeqCst);
        }
    }
}

// Where there is no memory for it, the block is dropped with its stamp.
fn put(allocator: &Allocator, stamps: &Stamps, blocks: &mut Vec<Block>, block: Block)
    requires block { IsOutOf allocator.now block }
    requires out { All (IsOutOf allocator.now) blocks.old.items }
    ensures { All (IsOutOf allocator.now) blocks.new.items }
{
    let _ = allocator;
    stamp(stamps, &block, 0, stamp_of(&block));
    let Ok(()) = blocks.push(block) else {
        return;
    };
}

fn take_one(
    allocator: &Allocator,
    core: &mut Core,
    stamps: &Stamps,
    blocks: &mut Vec<Block>,
    order: u8,
)
    requires core { IsCoreOf allocator.now core.old }
    requires out { All (IsOutOf allocator.now) blocks.old.items }
    ensures core { IsCoreOf allocator.now core.new }
    ensures out { All (IsOutOf allocator.now) blocks.new.items }
{
    stamps.takes.fetch_add(1, Ordering::SeqCst);
    match allocator.take(core, order) {
        Ok(block) => put(allocator, stamps, blocks, block),
        Err(_) => {
            stamps.refused.fetch_add(1, Ordering::SeqCst);
        }
    }
}

// One block in eight is split.
fn give_one(
    allocator: &Allocator,
    core: &mut Core,
    stamps: &Stamps,
    blocks: &mut Vec<Block>,
    is_split: bool,
)
    requires core { IsCoreOf allocator.now core.old }
    requires out { All (IsOutOf allocator.now) blocks.old.items }
    ensures core { IsCoreOf allocator.now core.new }
    ensures out { All (IsOutOf allocator.now) blocks.new.items }
{
    let Some(block) = blocks.pop() else {
        return;
    };
    stamp(stamps, &block, stamp_of(&block), 0);
    if !is_split {
        allocator.give(core, block);
        return;
    }
    match allocator.split(core, block) {
        Ok((low, high)) => {
            put(allocator, stamps, blocks, high);
            put(allocator, stamps, blocks, low);
        }
        Err(block) => allocator.give(core, block),
    }
}

fn step(allocator: &Allocator, core: &mut Core, stamps: &Stamps, blocks: &mut Vec<Block>, seed: u64)
    requires core { IsCoreOf allocator.now core.old }
    requires out { All (IsOutOf allocator.now) blocks.old.items }
    ensures core { IsCoreOf allocator.now core.new }
    ensures out { All (IsOutOf allocator.now) blocks.new.items }
{
    let pick = seed >> 20;
    if pick % 2 == 0 || blocks.len() >= MOST_BLOCKS {
        give_one(allocator, core, stamps, blocks, pick % 16 < 2);
        return;
    }
    // small blocks come more often than great ones
    let order = ((seed >> 40) % 10).min((seed >> 50) % 10);
    take_one(allocator, core, stamps, blocks, order as u8);
}

// Takes and gives through one core until the end. What is in hand then stays held, with its stamps.
fn work<R: Clock>(
    rt: &R,
    alloc: Global,
    allocator: &Allocator,
    mut core: Core,
    stamps: &Stamps,
    end: (Instant, Duration),
) -> Core
    requires core { IsCoreOf allocator.now core }
    ensures { IsCoreOf allocator.entry.now result }
{
    let mut blocks = Vec::new(alloc);
    let mut seed = 0x9e37_79b9_7f4a_7c15u64.wrapping_add(u64::from(core.number()));
    for _turn in 0..u32::MAX {
        for _i in 0..STEPS {
            seed = next(seed);
            step(allocator, &mut core, stamps, &mut blocks, seed);
        }
        match end.0.elapsed(rt) {
            Ok(spent) if spent < end.1 => {}
            _ => break,
        }
    }
    core
}

// All frames of the memory, with no stamp.
fn unstamped(alloc: Global, geometry: Geometry) -> io::Result<Vec<AtomicU64>> {
    let count = geometry.frames() as usize * FRAME_WORDS;
    let mut memory = Vec::with_capacity(alloc, count)?;
    for _i in 0..count {
        memory.push(AtomicU64::new(0))?;
    }
    Ok(memory)
}

/// Threads take and give at random on one memory, each through a core of its own, and look at the
/// stamps. `OutOfMemory` where memory or a thread is refused.
pub fn trial<R: Threads + Clock + Sync>(rt: &R, alloc: Global, plan: Plan) -> io::Result<Found> {
    let memory = unstamped(alloc, plan.geometry)?;
    let Ok((allocator, cores)) = Allocator::open(alloc, plan.geometry) else {
        return Err(io::Error::from(io::ErrorKind::OutOfMemory));
    };
    let (wrong, takes, refused) = (AtomicU64::new(0), AtomicU64::new(0), AtomicU64::new(0));
    let stamps = Stamps {
        memory: &memory,
        wrong: &wrong,
        takes: &takes,
        refused: &refused,
    };
    let (shared, seen) = (&allocator, &stamps);
    let end = (
        Instant::now(rt)?,
        Duration::from_secs(u64::from(plan.seconds)),
    );
    let done = thread::map_vec(
        rt,
        cores,
        &|core: Core| -> Core
            requires { IsCoreOf shared.now core }
            ensures { IsCoreOf shared.entry.now result }
        { work(rt, alloc, shared, core, seen, end) },
    );
    let Ok(cores) = done else {
        return Err(io::Error::from(io::ErrorKind::OutOfMemory));
    };
    let Ok(image) = allocator.close(alloc, cores) else {
        return Err(io::Error::from(io::ErrorKind::OutOfMemory));
    };
    Ok(Found {
        wrong: wrong.load(Ordering::SeqCst),
        lost: unlike(&image, &memory),
        takes: takes.load(Ordering::SeqCst),
        refused: refused.load(Ordering::SeqCst),
    })
}
