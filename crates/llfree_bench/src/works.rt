//! The work that is measured, the same as of the plain Rust program beside it: bench/reference/allocator
//! says what it is.

ghost use Rattle.std.specs.Prelude.{IfOk};
ghost use Rattle.std.specs.List.{All};
ghost use Rattle.core_frames.specs.Cores.{IsCoreOf};
ghost use Rattle.llfree_bench.specs.Hands.{IsHandOf};

use crate::hand::Hand;
use crate::phases::{Figure, cores_of, hands_of, no_memory, phase};
use crate::turns::Task;
use core_frames::{Allocator, Core};
use frame_words::{CHILD_FRAMES, Fault, Geometry, HUGE_ORDER};
use std::alloc::Global;
use std::io;
use std::rt::Clock;
use std::thread::Threads;

/// Children of the memory.
pub const CHILDREN: u32 = 1024;

const FRAMES: u32 = CHILD_FRAMES * CHILDREN;

/// The blocks that all threads hold of mixed orders.
const HELD: u32 = 49_152;

/// One measurement of takes and gives of a whole memory.
#[derive(Clone, Copy)]
pub enum Work {
    /// A take of the order and a give of that block, so many times a thread.
    Pairs { order: u8, count: u32 },
    /// The same of a single frame, through a cache of the core.
    Cached { count: u32 },
    /// All threads together fill memory with blocks of the order, and give them, so many times.
    Fill { order: u8, times: u64 },
    /// Blocks of random orders, about half of memory, of which one after another is given and taken
    /// anew, so many times a thread.
    Random { count: u32 },
}

/// The blocks of the order that a thread takes where all threads fill memory.
pub fn share(threads: u32, order: u8) -> u32 {
    (FRAMES >> order.min(HUGE_ORDER)) / threads.max(1)
}

/// One round of the work, in a memory of its own.
pub fn round<R: Threads + Clock + Sync>(
    rt: &R,
    alloc: Global,
    threads: u32,
    work: Work,
) -> io::Result<Figure> {
    let Ok((memory, cores)) = open(alloc, threads) else {
        return Err(no_memory());
    };
    let most = match work {
        Work::Pairs { .. } | Work::Cached { .. } => 0,
        Work::Fill { order, .. } => share(threads, order),
        Work::Random { .. } => HELD / threads.max(1),
    };
    let Ok(hands) = hands_of(alloc, &memory, cores, most as usize) else {
        return Err(no_memory());
    };
    let (hands, figure) = measured(rt, alloc, &memory, hands, work)?;
    if is_all_free(alloc, memory, hands)? {
        Ok(figure)
    } else {
        Err(io::Error::from(io::ErrorKind::Other))
    }
}

fn open(alloc: Global, threads: u32) -> Result<(Allocator, Vec<Core>), Fault>
    ensures { IfOk result (λ r. All (IsCoreOf r.0) r.1.items) }
{
    Allocator::open(alloc, Geometry::new(CHILDREN, threads)?)
}

// What counts is the phase between those that make and end it.
fn measured<R: Threads + Clock + Sync>(
    rt: &R,
    alloc: Global,
    memory: &Allocator,
    hands: Vec<Hand>,
    work: Work,
) -> io::Result<(Vec<Hand>, Figure)>
    requires { All (IsHandOf memory.now) hands.items }
    ensures { IfOk result (λ r. All (IsHandOf memory.now) r.0.items) }
{
    match work {
        Work::Pairs { order, count } => phase(rt, memory, hands, Task::Pairs { order, count }),
        Work::Cached { count } => phase(rt, memory, hands, Task::Cached { alloc, count }),
        Work::Fill { order, times } => phase(rt, memory, hands, Task::Fill { order, times }),
        Work::Random { count } => {
            let (hands, _) = phase(rt, memory, hands, Task::Gather)?;
            let (hands, figure) = phase(rt, memory, hands, Task::Turns { count })?;
            let (hands, _) = phase(rt, memory, hands, Task::GiveAll)?;
            Ok((hands, figure))
        }
    }
}

// Nothing is held once all cores are handed in, and each child says so.
fn is_all_free(alloc: Global, memory: Allocator, hands: Vec<Hand>) -> io::Result<bool>
    requires { All (IsHandOf memory) hands.items }
{
    let Ok(cores) = cores_of(alloc, &memory, hands) else {
        return Err(no_memory());
    };
    let Ok(image) = memory.close(alloc, cores) else {
        return Err(no_memory());
    };
    for child in 0..image.geometry().children() {
        if image.free(child) < 512 || image.huge(child) {
            return Ok(false);
        }
    }
    Ok(true)
}
