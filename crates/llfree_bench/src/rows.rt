//! One measurement: threads that make pairs of one order.

ghost use Rattle.std.specs.Prelude.{◌≡◌, ◌<◌, ◌≤◌};
ghost use Rattle.frame_model.specs.Key.{tree_count};
ghost use Rattle.frame_table.specs.Seats.{key_at, IsIdleSeat};
ghost use Rattle.frame_tests.specs.Work.{MayWork};

use frame_table::{CoreSeat, FrameTable, open_table};
use frame_tests::work;
use frame_words::Geometry;
use std::alloc::Global;
use std::rt::Clock;
use std::sync::atomic::{AtomicU64, Ordering};
use std::thread::Threads;
use std::time::{Duration, Instant};
use std::{io, thread};

const CHILDREN: u32 = 512;

const TREES: u32 = 64;

/// How many threads.
pub const THREADS: [u32; 3] = [1, 2, 4];

/// The orders of takes and gives of a whole memory.
pub const ORDERS: [u8; 3] = [0, 3, 9];

/// The pairs of a thread, and the rounds of which the fastest counts.
#[derive(Clone, Copy)]
pub struct Plan {
    pub count: u32,
    pub rounds: u32,
}

/// Which trees, how many threads, and the order.
#[derive(Clone, Copy)]
pub struct Row {
    /// All threads on one tree, or each on a tree of its own, as far apart as memory allows.
    pub is_shared: bool,
    pub threads: u32,
    pub order: u8,
    pub ghost lawful: { order ≤ 9 },
    pub ghost some: { (1 ≤ threads) × (threads ≤ 64) },
}

/// Tenths of a nanosecond for a pair of one thread, the least of some rounds, and how many takes of
/// all threads found a block in that round.
pub fn fastest<R: Threads + Clock + Sync>(
    rt: &R,
    alloc: Global,
    row: Row,
    plan: Plan,
) -> io::Result<(u64, u64)> {
    let mut best = measure(rt, alloc, row, plan.count)?;
    for _i in 1..plan.rounds {
        let round = measure(rt, alloc, row, plan.count)?;
        if round.0 < best.0 {
            best = round;
        }
    }
    let nanos = u64::try_from(best.0.as_nanos()).unwrap_or(u64::MAX);
    Ok((
        nanos.saturating_mul(10) / u64::from(plan.count.max(1)),
        best.1,
    ))
}

fn measure<R: Threads + Clock + Sync>(
    rt: &R,
    alloc: Global,
    row: Row,
    count: u32,
) -> io::Result<(Duration, u64)> {
    let Ok(geometry) = Geometry::new(CHILDREN, row.threads) else {
        unreachable!()
    };
    let Ok((table, seats)) = open_table(alloc, &geometry) else {
        return Err(io::Error::from(io::ErrorKind::OutOfMemory));
    };
    let turns = AtomicU64::new(0);
    let (shared, turn) = (&table, &turns);
    let start = Instant::now(rt)?;
    let counts = thread::map_vec(
        rt,
        seats,
        &|core: CoreSeat| -> u64
            requires { IsIdleSeat shared.now core × (64 ≤ tree_count (key_at shared.now)) }
        { run(shared, core, tree_of_turn(turn, row), row.order, count) },
    );
    let spent = start.elapsed(rt)?;
    let Ok(counts) = counts else {
        return Err(io::Error::from(io::ErrorKind::OutOfMemory));
    };
    let mut found = 0u64;
    for n in &counts {
        found = found.saturating_add(*n);
    }
    Ok((spent, found))
}

// The tree of the thread that comes next.
fn tree_of_turn(turn: &AtomicU64, row: Row) -> u32
    ensures { result < 64 }
{
    let number = turn.fetch_add(1, Ordering::SeqCst) % u64::from(row.threads);
    if row.is_shared {
        return 0;
    }
    number as u32 * TREES / row.threads
}

fn run(table: &FrameTable, mut core: CoreSeat, tree: u32, order: u8, count: u32) -> u64
    requires { MayWork table.now tree order core }
{
    work(table, &mut core, tree, order, u64::from(count))
}
