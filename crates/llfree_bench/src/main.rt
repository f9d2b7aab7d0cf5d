//! Measures pairs of a take and a give on a shared table. With the word `allocator` first it measures
//! takes and gives of a whole memory, with the word `cached` pairs of cores with single frames at hand,
//! with the word `zones` those of many zones. The other words are the pairs of a thread and the rounds,
//! of which the fastest counts; with no words it prints nothing.
#![tactic(auto)]

ghost use Rattle.std.specs.Prelude.{◌≤◌};

mod allocator_rows;
mod cached_rows;
mod cached_works;
mod hand;
mod phases;
mod rows;
mod turns;
mod works;
mod zone_rows;
mod zone_works;

use allocator_rows::print_all;
use rows::{Plan, Row, THREADS, fastest};
use std::alloc::Global;
use std::rt::Clock;
use std::thread::Threads;
use std::{env, io};

/// The orders of pairs in a tree.
const PAIRS: [u8; 5] = [0, 3, 6, 7, 9];

// The pairs of a thread, and the rounds.
fn plan_of(count: Option<String>, rounds: Option<String>) -> Option<Plan> {
    let count = count?.as_str().parse::<u32>().ok()?;
    let rounds = rounds?.as_str().parse::<u32>().ok()?;
    Some(Plan { count, rounds })
}

// A line for each order: which trees, threads, order, tenths of a nanosecond for a pair of one
// thread, and how many takes of all threads found a block.
fn print_rows<R: Threads + Clock + Print + Sync>(
    rt: &R,
    alloc: Global,
    is_shared: bool,
    threads: u32,
    plan: Plan,
) -> io::Result<()>
    requires { (1 ≤ threads) × (threads ≤ 64) }
{
    let trees = if is_shared { "one tree" } else { "own trees" };
    for order in PAIRS {
        let row = Row {
            is_shared,
            threads,
            order,
        };
        let (spent, found) = fastest(rt, alloc, row, plan)?;
        println!(rt; "{trees},{threads},{order},{spent},{found}")?;
    }
    Ok(())
}

fn print_tables<R: Threads + Clock + Print + Sync>(
    rt: &R,
    alloc: Global,
    plan: Plan,
) -> io::Result<()> {
    for threads in THREADS {
        print_rows(rt, alloc, false, threads, plan)?;
    }
    for threads in THREADS {
        print_rows(rt, alloc, true, threads, plan)?;
    }
    Ok(())
}

fn main(rt: HostRuntime) -> io::Result<()> {
    let mut words = env::args(&rt)?.skip(1);
    let Some(first) = words.next() else {
        return Ok(());
    };
    let is_zones = first.as_str() == "zones";
    let is_cached = first.as_str() == "cached";
    if is_zones || is_cached || first.as_str() == "allocator" {
        let Some(plan) = plan_of(words.next(), words.next()) else {
            return Ok(());
        };
        if is_zones {
            return zone_rows::print_all(&rt, rt.alloc(), plan);
        }
        if is_cached {
            return cached_rows::print_all(&rt, rt.alloc(), plan);
        }
        return print_all(&rt, rt.alloc(), plan);
    }
    let Some(plan) = plan_of(Some(first), words.next()) else {
        return Ok(());
    };
    print_tables(&rt, rt.alloc(), plan)
}
