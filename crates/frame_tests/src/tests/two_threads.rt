//! Two threads on one table.

ghost use Rattle.std.specs.Prelude.{◌<◌, ◌≤◌, IfSome};
ghost use Rattle.frame_model.specs.Key.{tree_count};
ghost use Rattle.frame_table.specs.Seats.{key_at, IsIdleSeat, IsOut};

use super::seats::{close_two, open_for_two};
use crate::{give_one, take_one, work};
use frame_core::Image;
use frame_table::{Block, CoreSeat, FrameTable};
use frame_words::{Fault, Geometry};
use std::alloc::Global;
use std::test::Fail;
use std::thread::{Threads, join};

/// What a core is to do in tree 0.
#[derive(Clone, Copy)]
struct Task {
    order: u8,
    // Pairs for which was paid once, and then tries that pay each for itself.
    pairs: u64,
    tries: u64,
    ghost lawful: { order ≤ 9 },
}

fn run(table: &FrameTable, mut core: CoreSeat, task: Task) -> CoreSeat
    requires tree { 0 < tree_count (key_at table.now) }
    requires ready { IsIdleSeat table.now core }
    ensures { IsIdleSeat table.entry.now result }
{
    work(table, &mut core, 0, task.order, task.pairs);
    for _i in 0..task.tries {
        if let Some(block) = take_one(table, &mut core, 0, task.order) {
            give_one(table, &mut core, block);
        }
    }
    core
}

fn run_and_take(table: &FrameTable, core: CoreSeat, task: Task) -> (CoreSeat, Option<Block>)
    requires tree { 0 < tree_count (key_at table.now) }
    requires ready { IsIdleSeat table.now core }
    ensures core { IsIdleSeat table.entry.now result.0 }
    ensures block { IfSome result.1 (IsOut table.entry.now) }
{
    let mut core = run(table, core, task);
    let block = take_one(table, &mut core, 0, task.order);
    (core, block)
}

fn give_and_run(
    table: &FrameTable,
    mut core: CoreSeat,
    block: Option<Block>,
    task: Task,
) -> CoreSeat
    requires tree { 0 < tree_count (key_at table.now) }
    requires ready { IsIdleSeat table.now core }
    requires block { IfSome block (IsOut table.now) }
    ensures { IsIdleSeat table.entry.now result }
{
    if let Some(block) = block {
        give_one(table, &mut core, block);
    }
    run(table, core, task)
}

// Both cores run at once.
fn both<R: Threads + Sync>(
    rt: &R,
    table: &FrameTable,
    cores: (CoreSeat, CoreSeat),
    tasks: (Task, Task),
) -> (CoreSeat, CoreSeat)
    requires tree { 0 < tree_count (key_at table.now) }
    requires ready { IsIdleSeat table.now cores.0 × IsIdleSeat table.now cores.1 }
    ensures { IsIdleSeat table.entry.now result.0 × IsIdleSeat table.entry.now result.1 }
{
    let (first, second) = cores;
    join(
        rt,
        move || -> CoreSeat
            requires { IsIdleSeat table.now first × (0 < tree_count (key_at table.now)) }
            ensures { IsIdleSeat table.entry.now result }
        { run(table, first, tasks.0) },
        move || -> CoreSeat
            requires { IsIdleSeat table.now second × (0 < tree_count (key_at table.now)) }
            ensures { IsIdleSeat table.entry.now result }
        { run(table, second, tasks.1) },
    )
}

// Both cores run at once, and the second one gives the block first.
fn give_and_run_both<R: Threads + Sync>(
    rt: &R,
    table: &FrameTable,
    cores: (CoreSeat, CoreSeat),
    block: Option<Block>,
    task: Task,
) -> (CoreSeat, CoreSeat)
    requires tree { 0 < tree_count (key_at table.now) }
    requires ready { (IsIdleSeat table.now cores.0 × IsIdleSeat table.now cores.1)
        × IfSome block (IsOut table.now) }
    ensures { IsIdleSeat table.entry.now result.0 × IsIdleSeat table.entry.now result.1 }
{
    let (first, second) = cores;
    join(
        rt,
        move || -> CoreSeat
            requires { IsIdleSeat table.now first × (0 < tree_count (key_at table.now)) }
            ensures { IsIdleSeat table.entry.now result }
        { run(table, first, task) },
        move || -> CoreSeat
            requires { IsIdleSeat table.now second × (0 < tree_count (key_at table.now))
                × IfSome block (IsOut table.now) }
            ensures { IsIdleSeat table.entry.now result }
        { give_and_run(table, second, block, task) },
    )
}

// All frames are free, and no tree is reserved: the words are those of a fresh memory.
fn is_fresh(alloc: Global, children: u32, image: &Image) -> Result<bool, Fault> {
    let fresh = Image::new(alloc, &Geometry::new(children, 2)?)?;
    Ok(image.words() == fresh.words())
}

// Two threads work at once; is all free then?
fn leave_all_free<R: Threads + Sync>(
    rt: &R,
    alloc: Global,
    children: u32,
    tasks: (Task, Task),
) -> Result<bool, Fault> {
    let (table, first, second) = open_for_two(alloc, children)?;
    let cores = both(rt, &table, (first, second), tasks);
    let image = close_two(alloc, table, cores)?;
    is_fresh(alloc, children, &image)
}

#[test]
fn two_threads_leave_all_frames_free(rt: HostRuntime) -> Result<(), Fail> {
    for (children, orders, pairs, tries) in [
        (8, (0, 0), 1000, 0),
        (1, (9, 9), 0, 1000),
        (2, (9, 9), 0, 1000),
        (1, (7, 8), 1000, 0),
        (1, (8, 7), 0, 1000),
        (2, (3, 9), 500, 500),
    ] {
        let tasks = (
            Task {
                order: orders.0,
                pairs,
                tries,
            },
            Task {
                order: orders.1,
                pairs,
                tries,
            },
        );
        assert!(rt;
            leave_all_free(&rt, rt.alloc(), children, tasks)?,
            "on {children} children"
        );
    }
    Ok(())
}

// The first core takes a block at the end of its work, and the other one gives it.
#[test]
fn a_block_crosses_to_the_other_thread(rt: HostRuntime) -> Result<(), Fail> {
    let (table, first, second) = open_for_two(rt.alloc(), 8)?;
    let shared = &table;
    let task = Task {
        order: 0,
        pairs: 1000,
        tries: 0,
    };
    let ((first, block), second) = join(
        &rt,
        move || -> (CoreSeat, Option<Block>)
            requires { IsIdleSeat shared.now first × (0 < tree_count (key_at shared.now)) }
            ensures { IsIdleSeat shared.entry.now result.0
                × IfSome result.1 (IsOut shared.entry.now) }
        { run_and_take(shared, first, task) },
        move || -> CoreSeat
            requires { IsIdleSeat shared.now second × (0 < tree_count (key_at shared.now)) }
            ensures { IsIdleSeat shared.entry.now result }
        { run(shared, second, task) },
    );
    let cores = give_and_run_both(&rt, shared, (first, second), block, task);
    let image = close_two(rt.alloc(), table, cores)?;
    assert!(rt; is_fresh(rt.alloc(), 8, &image)?);
    Ok(())
}
