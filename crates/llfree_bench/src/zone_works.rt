//! Takes and gives in zones, which together have the memory of the one allocator.

ghost use Rattle.std.specs.Prelude.{IfOk};
ghost use Rattle.std.specs.List.{All};
ghost use Rattle.frame_zones.specs.Zones.{AreCoresOf};

use crate::phases::{Figure, no_memory};
use crate::works::CHILDREN;
use frame_words::{Fault, Geometry, HUGE_ORDER};
use frame_zones::{Span, ZoneCore, Zones};
use std::alloc::{AllocError, Global};
use std::io;
use std::rt::Clock;
use std::thread::{self, Threads};
use std::time::Instant;

/// How many threads, and the order of a take.
#[derive(Clone, Copy)]
pub struct Setting {
    pub threads: u32,
    pub order: u8,
    /// Whether the home zone of each thread is full before the pairs.
    pub is_full: bool,
}

/// A take and a give of that block, so many times a thread, in zones of their own.
pub fn pairs<R: Threads + Clock + Sync>(
    rt: &R,
    alloc: Global,
    zones: u32,
    setting: Setting,
    count: u32,
) -> io::Result<Figure> {
    let children = CHILDREN / zones.max(1);
    let Ok((zones, cores)) = open(alloc, zones, children, setting.threads) else {
        return Err(no_memory());
    };
    let held = if setting.is_full { children } else { 0 };
    let Ok(cores) = filled(rt, &zones, cores, held) else {
        return Err(no_memory());
    };
    let start = Instant::now(rt)?;
    let refused = paired(rt, &zones, cores, setting.order, count);
    let spent = start.elapsed(rt)?;
    let Ok(counts) = refused else {
        return Err(no_memory());
    };
    let mut refused = 0u64;
    for count in &counts {
        refused = refused.saturating_add(*count);
    }
    Ok(Figure { spent, refused })
}

/// An opening of 64 GiB: eight zones of 8 GiB, and one core.
pub fn opening<R: Clock>(rt: &R, alloc: Global) -> io::Result<Figure> {
    let start = Instant::now(rt)?;
    let opened = open(alloc, 8, 4096, 1);
    let spent = start.elapsed(rt)?;
    if opened.is_err() {
        return Err(no_memory());
    }
    Ok(Figure { spent, refused: 0 })
}

// So many zones of as many children, one behind the other.
fn open(
    alloc: Global,
    zones: u32,
    children: u32,
    cores: u32,
) -> Result<(Zones, Vec<ZoneCore>), Fault>
    ensures { IfOk result (λ r. All (AreCoresOf r.0) r.1.items) }
{
    let geometry = Geometry::new(children, cores)?;
    let mut spans = Vec::new(alloc);
    for zone in 0..zones {
        spans.push(Span {
            first: u64::from(zone).saturating_mul(u64::from(geometry.frames())),
            geometry,
            ranges: Vec::new(alloc),
        })?;
    }
    Zones::open(alloc, cores, &spans)
}

// Each core takes so many huge frames, which stay held.
fn filled<R: Threads + Sync>(
    rt: &R,
    zones: &Zones,
    cores: Vec<ZoneCore>,
    held: u32,
) -> Result<Vec<ZoneCore>, AllocError>
    requires { All (AreCoresOf zones.now) cores.items }
    ensures { IfOk result (λ all. All (AreCoresOf zones.entry.now) all.items) }
{
    thread::map_vec(
        rt,
        cores,
        &|core: ZoneCore| -> ZoneCore
            requires { AreCoresOf zones.now core }
            ensures { AreCoresOf zones.entry.now result }
        { fill(zones, core, held) },
    )
}

fn fill(zones: &Zones, mut core: ZoneCore, held: u32) -> ZoneCore
    requires { AreCoresOf zones.now core }
    ensures { AreCoresOf zones.entry.now result }
{
    for _i in 0..held {
        let _ = zones.take(&mut core, HUGE_ORDER);
    }
    core
}

// All cores work at the same time, each in a thread: how many takes of each were refused.
fn paired<R: Threads + Sync>(
    rt: &R,
    zones: &Zones,
    cores: Vec<ZoneCore>,
    order: u8,
    count: u32,
) -> Result<Vec<u64>, AllocError>
    requires { All (AreCoresOf zones.now) cores.items }
{
    thread::map_vec(
        rt,
        cores,
        &|core: ZoneCore| -> u64
            requires { AreCoresOf zones.now core }
        { work(zones, core, order, count) },
    )
}

// So many takes of an order, each with its give: how many were refused.
fn work(zones: &Zones, mut core: ZoneCore, order: u8, count: u32) -> u64
    requires { AreCoresOf zones.now core }
{
    let mut refused = 0u64;
    for _i in 0..count {
        match zones.take(&mut core, order) {
            Ok(block) => {
                zones.give(&mut core, block);
            }
            Err(_) => refused = refused.wrapping_add(1),
        }
    }
    refused
}
