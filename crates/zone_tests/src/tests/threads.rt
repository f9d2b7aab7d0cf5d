//! Two threads that share the zones, each with a home of its own.

ghost use Rattle.std.specs.Prelude.{IfSome};
ghost use Rattle.frame_zones.specs.Zones.{AreCoresOf, IsOutOfItsZone};

use super::closings::held_once_closed;
use super::memory::open_for_two;
use frame_zones::{ZoneBlock, ZoneCore, Zones};
use std::test::Fail;
use std::thread::{Threads, join};

// Takes and gives, a thousand times, and has one block more in hand.
fn work(zones: &Zones, mut core: ZoneCore, order: u8) -> (ZoneCore, Option<ZoneBlock>)
    requires { AreCoresOf zones.now core }
    ensures core { AreCoresOf zones.entry.now result.0 }
    ensures block { IfSome result.1 (IsOutOfItsZone zones.entry.now) }
{
    for _i in 0..1000u32 {
        if let Ok(block) = zones.take(&mut core, order) {
            zones.give(&mut core, block);
        }
    }
    match zones.take(&mut core, order) {
        Ok(block) => (core, Some(block)),
        Err(_) => (core, None),
    }
}

// Gives what the other thread has in hand.
fn give_other(zones: &Zones, mut core: ZoneCore, block: Option<ZoneBlock>) -> ZoneCore
    requires core { AreCoresOf zones.now core }
    requires block { IfSome block (IsOutOfItsZone zones.now) }
    ensures { AreCoresOf zones.entry.now result }
{
    if let Some(block) = block {
        zones.give(&mut core, block);
    }
    core
}

// Both work, and then each gives what the other has in hand.
fn both<R: Threads + Sync>(
    rt: &R,
    zones: &Zones,
    first: ZoneCore,
    second: ZoneCore,
    order: u8,
) -> (ZoneCore, ZoneCore)
    requires first { AreCoresOf zones.now first }
    requires second { AreCoresOf zones.now second }
    ensures first { AreCoresOf zones.entry.now result.0 }
    ensures second { AreCoresOf zones.entry.now result.1 }
{
    let ((first, one), (second, other)) = join(
        rt,
        move || -> (ZoneCore, Option<ZoneBlock>)
            requires { AreCoresOf zones.now first }
            ensures core { AreCoresOf zones.entry.now result.0 }
            ensures block { IfSome result.1 (IsOutOfItsZone zones.entry.now) }
        { work(zones, first, order) },
        move || -> (ZoneCore, Option<ZoneBlock>)
            requires { AreCoresOf zones.now second }
            ensures core { AreCoresOf zones.entry.now result.0 }
            ensures block { IfSome result.1 (IsOutOfItsZone zones.entry.now) }
        { work(zones, second, order) },
    );
    join(
        rt,
        move || -> ZoneCore
            requires core { AreCoresOf zones.now first }
            requires block { IfSome other (IsOutOfItsZone zones.now) }
            ensures { AreCoresOf zones.entry.now result }
        { give_other(zones, first, other) },
        move || -> ZoneCore
            requires core { AreCoresOf zones.now second }
            requires block { IfSome one (IsOutOfItsZone zones.now) }
            ensures { AreCoresOf zones.entry.now result }
        { give_other(zones, second, one) },
    )
}

#[test]
fn two_threads_give_each_others_blocks(rt: HostRuntime) -> Result<(), Fail> {
    for order in [0, 3, 7, 9] {
        let (zones, first, second) = open_for_two(rt.alloc(), 8)?;
        let (first, second) = both(&rt, &zones, first, second, order);
        assert!(rt; held_once_closed(rt.alloc(), zones, first, second)? == 16);
    }
    Ok(())
}
