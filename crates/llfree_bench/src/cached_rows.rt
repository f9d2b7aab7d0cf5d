//! The lines of pairs of cores with single frames at hand.

use crate::allocator_rows::{fastest, tenths};
use crate::rows::{Plan, THREADS};
use crate::works::Work;
use std::alloc::Global;
use std::io;
use std::rt::Clock;
use std::thread::Threads;

/// A line for each number of threads, as those of a whole memory.
pub fn print_all<R: Threads + Clock + Print + Sync>(
    rt: &R,
    alloc: Global,
    plan: Plan,
) -> io::Result<()> {
    for threads in THREADS {
        let count = plan.count;
        let best = fastest(rt, alloc, threads, Work::Cached { count }, plan.rounds)?;
        let spent = tenths(best, u64::from(count));
        println!(rt; "cached,{threads},0,llfree,{spent},{}", best.refused)?;
    }
    Ok(())
}
