//! Which blocks are answered, each call with ample memory.

ghost use Rattle.frame_zones.specs.Zones.{AreCoresOf, IsOutOfItsZone};

use super::memory::{next_core, open_for_two, open_two};
use frame_words::TakeFault;
use frame_zones::{ZoneBlock, ZoneCore, Zones, blocks_lie_in_zones};
use std::process::Abort;
use std::test::Fail;

// The first frame of a block that is taken, and stays held.
pub(super) fn taken(zones: &Zones, core: &mut ZoneCore, order: u8) -> Result<u64, TakeFault>
    requires { AreCoresOf zones.now core.old }
    ensures { AreCoresOf zones.now core.new }
{
    match zones.take(core, order) {
        Ok(block) => Ok(zones.frame_of(&block)),
        Err(fault) => Err(fault),
    }
}

#[test]
fn a_full_home_zone_falls_over_to_the_next(rt: HostRuntime) -> Result<(), Fail> {
    let (zones, mut first, mut second) = open_for_two(rt.alloc(), 1)?;
    assert!(rt; taken(&zones, &mut second, 7) == Ok(8320));
    assert!(rt; taken(&zones, &mut first, 8) == Ok(256));
    assert!(rt; taken(&zones, &mut first, 8) == Ok(8448));
    assert!(rt; taken(&zones, &mut second, 7) == Ok(128));
    assert!(rt; taken(&zones, &mut first, 7) == Err(TakeFault::NoBlock));
    assert!(rt; taken(&zones, &mut first, 10) == Err(TakeFault::BadOrder));
    Ok(())
}

#[test]
fn takes_begin_in_the_home_that_is_set(rt: HostRuntime) -> Result<(), Fail> {
    let (zones, mut first, mut second) = open_for_two(rt.alloc(), 1)?;
    assert!(rt; zones.count() == 2);
    zones.set_home(&mut first, 1);
    assert!(rt; taken(&zones, &mut first, 8) == Ok(8448));
    assert!(rt; taken(&zones, &mut first, 8) == Ok(256));
    assert!(rt; taken(&zones, &mut first, 7) == Ok(8320));
    zones.set_home(&mut first, 0);
    assert!(rt; taken(&zones, &mut first, 7) == Ok(128));
    assert!(rt; taken(&zones, &mut second, 6) == Ok(8256));
    assert!(rt; zones.free_frames_of(&mut first, 0) == 504 - 256 - 128);
    assert!(rt; zones.free_frames_of(&mut first, 1) == 504 - 256 - 128 - 64);
    assert!(rt; zones.free_huge_of(&mut second, 0) == 0);
    assert!(rt; zones.free_huge_of(&mut second, 1) == 0);
    Ok(())
}

// Whether a memory of one child a zone has the frame and does not hold it back.
fn is_there(frame: u64) -> bool {
    matches!(frame, 0..=7 | 16..=511 | 8192..=8199 | 8208..=8703)
}

// How many frames are taken, one after another, before none is there.
fn taken_in_all(rt: &impl Abort, zones: &Zones, core: &mut ZoneCore) -> u32
    requires { AreCoresOf zones.now core.old }
{
    for count in 0..2000u32 {
        let Ok(frame) = taken(zones, core, 0) else {
            return count;
        };
        assert!(rt; is_there(frame), "frame {frame}");
    }
    2000
}

#[test]
fn a_hole_is_never_given_out(rt: HostRuntime) -> Result<(), Fail> {
    let (zones, mut cores) = open_two(rt.alloc(), 1, 1)?;
    let mut core = next_core(&zones, &mut cores).ok_or("a core")?;
    assert!(rt; taken_in_all(&rt, &zones, &mut core) == 2 * 504);
    Ok(())
}

// The halves of a block.
fn halves(
    rt: &impl Abort,
    zones: &Zones,
    core: &mut ZoneCore,
    block: ZoneBlock,
) -> (ZoneBlock, ZoneBlock)
    requires core { AreCoresOf zones.now core.old }
    requires block { IsOutOfItsZone zones.now block }
    ensures core { AreCoresOf zones.now core.new }
    ensures lower { IsOutOfItsZone zones.now result.0 }
    ensures upper { IsOutOfItsZone zones.now result.1 }
{
    let Ok(both) = zones.split(core, block) else {
        panic!(rt; "it has halves");
    };
    both
}

// The block of both halves, which are no buddies the other way round.
fn joined(
    rt: &impl Abort,
    zones: &Zones,
    core: &mut ZoneCore,
    lower: ZoneBlock,
    upper: ZoneBlock,
) -> ZoneBlock
    requires core { AreCoresOf zones.now core.old }
    requires lower { IsOutOfItsZone zones.now lower }
    requires upper { IsOutOfItsZone zones.now upper }
    ensures core { AreCoresOf zones.now core.new }
    ensures block { IsOutOfItsZone zones.now result }
{
    let Err((upper, lower)) = zones.join(core, upper, lower) else {
        panic!(rt; "the upper half is not the lower one");
    };
    let Ok(block) = zones.join(core, lower, upper) else {
        panic!(rt; "they are buddies");
    };
    block
}

// The block, kept and handed out again.
fn recalled(zones: &Zones, core: &mut ZoneCore, block: ZoneBlock) -> ZoneBlock
    requires core { AreCoresOf zones.now core.old }
    requires block { IsOutOfItsZone zones.now block }
    ensures core { AreCoresOf zones.now core.new }
    ensures block { IsOutOfItsZone zones.now result }
{
    let (zone, frame, order) = zones.keep(core, block);
    zones.recall(core, zone, frame, order)
}

#[test]
fn a_block_is_split_joined_kept_and_given(rt: HostRuntime) -> Result<(), Fail> {
    let (zones, _first, mut core) = open_for_two(rt.alloc(), 1)?;
    assert!(rt; zones.count() == 2);
    let Ok(block) = zones.take(&mut core, 8) else {
        return Err(Fail::from("a block"));
    };
    let (low, high) = halves(&rt, &zones, &mut core, block);
    let block = joined(&rt, &zones, &mut core, low, high);
    assert!(rt; (zones.frame_of(&block), block.order()) == (8448, 8));
    let (low, high) = halves(&rt, &zones, &mut core, block);
    blocks_lie_in_zones(&zones, &low, &high);
    assert!(rt; (zones.frame_of(&low), low.order()) == (8448, 7));
    zones.give(&mut core, low);
    let high = recalled(&zones, &mut core, high);
    assert!(rt; (zones.frame_of(&high), high.order()) == (8576, 7));
    assert!(rt; zones.keep(&mut core, high) == (1, 384, 7));
    Ok(())
}

// The first frame of just this block, which is taken, and stays held.
fn taken_at(zones: &Zones, core: &mut ZoneCore, frame: u64, order: u8) -> Result<u64, TakeFault>
    requires { AreCoresOf zones.now core.old }
    ensures { AreCoresOf zones.now core.new }
{
    match zones.take_at(core, frame, order) {
        Ok(block) => Ok(zones.frame_of(&block)),
        Err(fault) => Err(fault),
    }
}

#[test]
fn just_this_block_is_taken_where_it_is_free(rt: HostRuntime) -> Result<(), Fail> {
    let (zones, mut first, mut second) = open_for_two(rt.alloc(), 1)?;
    let Ok(block) = zones.take_at(&mut first, 8448, 6) else {
        return Err(Fail::from("a block of the second zone"));
    };
    assert!(rt; (zones.frame_of(&block), block.order()) == (8448, 6));
    assert!(rt; taken_at(&zones, &mut second, 8448, 6) == Err(TakeFault::NoBlock));
    assert!(rt; taken_at(&zones, &mut second, 8511, 0) == Err(TakeFault::NoBlock));
    assert!(rt; taken_at(&zones, &mut second, 8192, 9) == Err(TakeFault::NoBlock));
    zones.give(&mut second, block);
    assert!(rt; taken_at(&zones, &mut second, 8448, 8) == Ok(8448));
    assert!(rt; taken(&zones, &mut first, 0) == Ok(0));
    assert!(rt; taken_at(&zones, &mut second, 0, 0) == Err(TakeFault::NoBlock));
    assert!(rt; taken_at(&zones, &mut second, 1, 0) == Ok(1));
    Ok(())
}

#[test]
fn no_block_is_taken_where_there_is_none(rt: HostRuntime) -> Result<(), Fail> {
    let (zones, mut core, _second) = open_for_two(rt.alloc(), 1)?;
    // held back
    assert!(rt; taken_at(&zones, &mut core, 8200, 3) == Err(TakeFault::NoBlock));
    assert!(rt; taken_at(&zones, &mut core, 0, 4) == Err(TakeFault::NoBlock));
    // not aligned
    assert!(rt; taken_at(&zones, &mut core, 8449, 1) == Err(TakeFault::NoBlock));
    // in the hole, and past the end
    assert!(rt; taken_at(&zones, &mut core, 512, 0) == Err(TakeFault::NoBlock));
    assert!(rt; taken_at(&zones, &mut core, 8191, 0) == Err(TakeFault::NoBlock));
    assert!(rt; taken_at(&zones, &mut core, 8704, 0) == Err(TakeFault::NoBlock));
    assert!(rt; taken_at(&zones, &mut core, 8448, 10) == Err(TakeFault::BadOrder));
    assert!(rt; zones.free_frames(&mut core) == 2 * 504);
    Ok(())
}
