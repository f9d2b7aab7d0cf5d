//! The lines of takes and gives in zones.

use crate::allocator_rows::{fastest, tenths};
use crate::phases::Figure;
use crate::rows::{ORDERS, Plan, THREADS};
use crate::works::Work;
use crate::zone_works::{Setting, opening, pairs};
use std::alloc::Global;
use std::io;
use std::rt::Clock;
use std::thread::Threads;

/// A line for each number of threads and order of one allocator, and one for each number of zones;
/// then one for each where the home zone is full, and one of an opening: the work, the zones, the
/// threads, the order, tenths of a nanosecond, and how many takes of all threads were refused.
pub fn print_all<R: Threads + Clock + Print + Sync>(
    rt: &R,
    alloc: Global,
    plan: Plan,
) -> io::Result<()> {
    for threads in THREADS {
        for order in ORDERS {
            print_plain(rt, alloc, threads, order, plan)?;
            print_zones(
                rt,
                alloc,
                [1, 4, 64],
                Setting {
                    threads,
                    order,
                    is_full: false,
                },
                plan,
            )?;
        }
    }
    for order in ORDERS {
        print_zones(
            rt,
            alloc,
            [2, 4, 64],
            Setting {
                threads: 1,
                order,
                is_full: true,
            },
            plan,
        )?;
    }
    print_opening(rt, alloc, plan)
}

fn print_plain<R: Threads + Clock + Print + Sync>(
    rt: &R,
    alloc: Global,
    threads: u32,
    order: u8,
    plan: Plan,
) -> io::Result<()> {
    let count = plan.count;
    let work = Work::Pairs { order, count };
    let best = fastest(rt, alloc, threads, work, plan.rounds)?;
    let spent = tenths(best, u64::from(count));
    println!(rt; "pairs,none,{threads},{order},{spent},{}", best.refused)
}

fn print_zones<R: Threads + Clock + Print + Sync>(
    rt: &R,
    alloc: Global,
    many: [u32; 3],
    setting: Setting,
    plan: Plan,
) -> io::Result<()> {
    let work = if setting.is_full {
        "full home"
    } else {
        "pairs"
    };
    let Setting { threads, order, .. } = setting;
    for zones in many {
        let best = least(rt, alloc, zones, setting, plan)?;
        let spent = tenths(best, u64::from(plan.count));
        println!(rt; "{work},{zones},{threads},{order},{spent},{}", best.refused)?;
    }
    Ok(())
}

// The fastest of some rounds.
fn least<R: Threads + Clock + Sync>(
    rt: &R,
    alloc: Global,
    zones: u32,
    setting: Setting,
    plan: Plan,
) -> io::Result<Figure> {
    let mut best = pairs(rt, alloc, zones, setting, plan.count)?;
    for _i in 1..plan.rounds {
        let next = pairs(rt, alloc, zones, setting, plan.count)?;
        if next.spent < best.spent {
            best = next;
        }
    }
    Ok(best)
}

// Eight zones of 8 GiB, and one core.
fn print_opening<R: Clock + Print>(rt: &R, alloc: Global, plan: Plan) -> io::Result<()> {
    let mut best = opening(rt, alloc)?;
    for _i in 1..plan.rounds {
        let next = opening(rt, alloc)?;
        if next.spent < best.spent {
            best = next;
        }
    }
    println!(rt; "opening,8,1,none,{},0", tenths(best, 1))
}
