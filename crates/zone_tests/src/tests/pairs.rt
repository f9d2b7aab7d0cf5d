//! Pairs of cores: small blocks and huge frames come from trees of their own.

ghost use Rattle.std.specs.Prelude.{◌≡◌, ◌^◌, ◌<◌, IfOk, IfSome, length};
ghost use Rattle.std.specs.List.{All};
ghost use Rattle.frame_zones.specs.Pairs.{ArePairOf};
ghost use Rattle.frame_zones.specs.Zones.{AreCoresOf, IsOutOfItsZone};

use super::calls::taken;
use super::closings::held_in_each;
use super::memory::{next_core, open_two};
use frame_words::{Fault, Geometry, TakeFault};
use frame_zones::{PairCore, Span, ZoneBlock, ZoneCore, Zones};
use std::alloc::Global;
use std::process::Abort;
use std::test::Fail;

// One zone of eight trees.
fn open_trees(alloc: Global, cores: u32) -> Result<(Zones, Vec<ZoneCore>), Fault>
    ensures cores { IfOk result (λ r. All (AreCoresOf r.0) r.1.items) }
    ensures count { IfOk result (λ r. length r.1.items ≡ cores) }
    ensures as_many { IfOk result (λ r. r.0.cores ≡ cores) }
{
    let mut spans = Vec::with_capacity(alloc, 1)?;
    spans.push_reserved(Span {
        first: 0,
        geometry: Geometry::new(64, cores)?,
        ranges: Vec::new(alloc),
    });
    Zones::open(alloc, cores, &spans)
}

// The last pair of a list.
fn next_pair(zones: &Zones, pairs: &mut Vec<PairCore>) -> Option<PairCore>
    requires { All (ArePairOf zones.now) pairs.old.items }
    ensures pair { IfSome result (ArePairOf zones.now) }
    ensures left { All (ArePairOf zones.now) pairs.new.items }
{
    let _ = zones;
    pairs.pop()
}

// The pairs of four cores of an opening: the first pair, and the second.
fn two_pairs(
    alloc: Global,
    zones: &Zones,
    cores: Vec<ZoneCore>,
) -> Result<(PairCore, PairCore), Fault>
    requires cores { All (AreCoresOf zones.now) cores.items }
    requires count { length cores.items ≡ 4 }
    requires as_many { zones.now.cores ≡ 4 }
    ensures first { IfOk result (λ r. ArePairOf zones.entry.now r.0) }
    ensures second { IfOk result (λ r. ArePairOf zones.entry.now r.1) }
{
    let Ok(mut pairs) = zones.pair(alloc, cores) else {
        return Err(Fault::NoMemory);
    };
    let Some(second) = next_pair(zones, &mut pairs) else {
        return Err(Fault::MissingCores);
    };
    let Some(first) = next_pair(zones, &mut pairs) else {
        return Err(Fault::MissingCores);
    };
    Ok((first, second))
}

// The first frame of a block that is taken through the pair, and stays held.
fn taken_by(zones: &Zones, pair: &mut PairCore, order: u8) -> Result<u64, TakeFault>
    requires { ArePairOf zones.now pair.old }
    ensures { ArePairOf zones.now pair.new }
{
    match pair.take(zones, order) {
        Ok(block) => Ok(zones.frame_of(&block)),
        Err(fault) => Err(fault),
    }
}

// A single frame and a huge frame, which are these.
fn takes_both(rt: &impl Abort, zones: &Zones, pair: &mut PairCore, single: u64, huge: u64)
    requires { ArePairOf zones.now pair.old }
    ensures { ArePairOf zones.now pair.new }
{
    assert!(rt; taken_by(zones, pair, 0) == Ok(single));
    assert!(rt; taken_by(zones, pair, 9) == Ok(huge));
}

// A single frame and a huge frame in turn, nine times, from these on.
fn takes_in_turn(rt: &impl Abort, zones: &Zones, pair: &mut PairCore, single: u64, huge: u64)
    requires pair { ArePairOf zones.now pair.old }
    requires single { single < 2 ^ 32 }
    requires huge { huge < 2 ^ 32 }
    ensures { ArePairOf zones.now pair.new }
{
    takes_both(rt, zones, pair, single, huge);
    takes_both(rt, zones, pair, single + 1, huge + 512);
    takes_both(rt, zones, pair, single + 2, huge + 1024);
    takes_both(rt, zones, pair, single + 3, huge + 1536);
    takes_both(rt, zones, pair, single + 4, huge + 2048);
    takes_both(rt, zones, pair, single + 5, huge + 2560);
    takes_both(rt, zones, pair, single + 6, huge + 3072);
    takes_both(rt, zones, pair, single + 7, huge + 3584);
    takes_both(rt, zones, pair, single + 8, huge + 4096);
}

// Cores 0 to 3 begin in trees 0, 2, 4 and 6 of eight, which have 4,096 frames each.
#[test]
fn a_pair_takes_small_blocks_and_huge_frames_of_two_trees(rt: HostRuntime) -> Result<(), Fail> {
    let (zones, cores) = open_trees(rt.alloc(), 4)?;
    let (mut first, mut second) = two_pairs(rt.alloc(), &zones, cores)?;
    takes_in_turn(&rt, &zones, &mut first, 0, 16384);
    takes_in_turn(&rt, &zones, &mut second, 8192, 24576);
    assert!(rt; first.free_frames(&zones) == 32768 - 18 * 513);
    assert!(rt; second.free_huge(&zones) == 64 - 18 - 2);
    Ok(())
}

// The same through a single core.
fn takes_of_one(rt: &impl Abort, zones: &Zones, core: &mut ZoneCore, single: u64, huge: u64)
    requires { AreCoresOf zones.now core.old }
    ensures { AreCoresOf zones.now core.new }
{
    assert!(rt; taken(zones, core, 0) == Ok(single));
    assert!(rt; taken(zones, core, 9) == Ok(huge));
}

// The eighth huge frame is in the second tree, and the single frames follow it there.
#[test]
fn a_single_core_takes_them_of_one_tree(rt: HostRuntime) -> Result<(), Fail> {
    let (zones, mut cores) = open_trees(rt.alloc(), 1)?;
    let mut core = next_core(&zones, &mut cores).ok_or("a core")?;
    takes_of_one(&rt, &zones, &mut core, 0, 512);
    takes_of_one(&rt, &zones, &mut core, 1, 1024);
    takes_of_one(&rt, &zones, &mut core, 2, 1536);
    takes_of_one(&rt, &zones, &mut core, 3, 2048);
    takes_of_one(&rt, &zones, &mut core, 4, 2560);
    takes_of_one(&rt, &zones, &mut core, 5, 3072);
    takes_of_one(&rt, &zones, &mut core, 6, 3584);
    takes_of_one(&rt, &zones, &mut core, 7, 4096);
    takes_of_one(&rt, &zones, &mut core, 4608, 5120);
    Ok(())
}

// The halves of a block that the pair takes, of which the upper one is given.
fn lower_half(rt: &impl Abort, zones: &Zones, pair: &mut PairCore, block: ZoneBlock) -> (u64, u64)
    requires pair { ArePairOf zones.now pair.old }
    requires block { IsOutOfItsZone zones.now block }
    ensures { ArePairOf zones.now pair.new }
{
    let Ok((low, high)) = pair.split(zones, block) else {
        panic!(rt; "it has halves");
    };
    let frames = (zones.frame_of(&low), zones.frame_of(&high));
    pair.give(zones, high);
    frames
}

// How many frames of each zone are held, once all pairs are back.
fn held_after(
    alloc: Global,
    zones: Zones,
    first: PairCore,
    second: PairCore,
) -> Result<(u32, u32), Fault>
    requires first { ArePairOf zones first }
    requires second { ArePairOf zones second }
{
    let mut pairs = Vec::with_capacity(alloc, 2)?;
    pairs.push_reserved(first);
    pairs.push_reserved(second);
    let Ok(cores) = zones.unpair(alloc, pairs) else {
        return Err(Fault::NoMemory);
    };
    held_in_each(alloc, zones, cores)
}

#[test]
fn each_call_goes_through_a_pair(rt: HostRuntime) -> Result<(), Fail> {
    let (zones, cores) = open_two(rt.alloc(), 1, 4)?;
    let (mut first, mut second) = two_pairs(rt.alloc(), &zones, cores)?;
    assert!(rt; zones.count() == 2);
    // the home of each is the zone of its number
    assert!(rt; taken_by(&zones, &mut first, 8) == Ok(256));
    assert!(rt; taken_by(&zones, &mut second, 8) == Ok(8448));
    assert!(rt; taken_by(&zones, &mut second, 9) == Err(TakeFault::NoBlock));
    assert!(rt; taken_by(&zones, &mut second, 10) == Err(TakeFault::BadOrder));
    first.set_home(&zones, 1);
    let Ok(block) = first.take(&zones, 7) else {
        return Err(Fail::from("a block"));
    };
    assert!(rt; lower_half(&rt, &zones, &mut first, block) == (8320, 8384));
    let Ok(block) = first.take_at(&zones, 128, 7) else {
        return Err(Fail::from("just this block"));
    };
    assert!(rt; second.free_frames(&zones) == 2 * 504 - 2 * 256 - 64 - 128);
    second.give(&zones, block);
    assert!(rt; held_after(rt.alloc(), zones, first, second)? == (8 + 256, 8 + 256 + 64));
    Ok(())
}
