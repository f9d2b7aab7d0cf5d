//! The lines of takes and gives of a whole memory.

use crate::phases::Figure;
use crate::rows::{ORDERS, Plan, THREADS};
use crate::works::{Work, round, share};
use std::alloc::Global;
use std::io;
use std::rt::Clock;
use std::thread::Threads;

/// A line for each work, number of threads and order: these, the name of the allocator, tenths of a
/// nanosecond for one take and one give of one thread, and how many takes of all threads were refused.
pub fn print_all<R: Threads + Clock + Print + Sync>(
    rt: &R,
    alloc: Global,
    plan: Plan,
) -> io::Result<()> {
    for threads in THREADS {
        for order in ORDERS {
            print_pairs(rt, alloc, threads, order, plan)?;
        }
    }
    for threads in THREADS {
        for order in ORDERS {
            print_filling(rt, alloc, threads, order, plan)?;
        }
    }
    for threads in THREADS {
        print_random(rt, alloc, threads, plan)?;
    }
    Ok(())
}

fn print_pairs<R: Threads + Clock + Print + Sync>(
    rt: &R,
    alloc: Global,
    threads: u32,
    order: u8,
    plan: Plan,
) -> io::Result<()> {
    let count = plan.count;
    let best = fastest(
        rt,
        alloc,
        threads,
        Work::Pairs { order, count },
        plan.rounds,
    )?;
    let spent = tenths(best, u64::from(count));
    println!(rt; "pairs,{threads},{order},llfree,{spent},{}", best.refused)
}

fn print_filling<R: Threads + Clock + Print + Sync>(
    rt: &R,
    alloc: Global,
    threads: u32,
    order: u8,
    plan: Plan,
) -> io::Result<()> {
    let share = u64::from(share(threads, order)).max(1);
    let times = u64::from(plan.count).div_ceil(share);
    let best = fastest(rt, alloc, threads, Work::Fill { order, times }, plan.rounds)?;
    let spent = tenths(best, times.saturating_mul(share));
    println!(rt; "fill,{threads},{order},llfree,{spent},{}", best.refused)
}

fn print_random<R: Threads + Clock + Print + Sync>(
    rt: &R,
    alloc: Global,
    threads: u32,
    plan: Plan,
) -> io::Result<()> {
    let count = plan.count;
    let best = fastest(rt, alloc, threads, Work::Random { count }, plan.rounds)?;
    let spent = tenths(best, u64::from(count));
    println!(rt; "random,{threads},mixed,llfree,{spent},{}", best.refused)
}

/// Tenths of a nanosecond for one take and one give of one thread.
pub fn tenths(figure: Figure, count: u64) -> u64 {
    let nanos = u64::try_from(figure.spent.as_nanos()).unwrap_or(u64::MAX);
    nanos.saturating_mul(10) / count.max(1)
}

/// The fastest of some rounds.
pub fn fastest<R: Threads + Clock + Sync>(
    rt: &R,
    alloc: Global,
    threads: u32,
    work: Work,
    rounds: u32,
) -> io::Result<Figure> {
    let mut best = round(rt, alloc, threads, work)?;
    for _i in 1..rounds {
        let next = round(rt, alloc, threads, work)?;
        if next.spent < best.spent {
            best = next;
        }
    }
    Ok(best)
}
