//! Zones that are closed in one call, and opened at their images: what is free, and what is adopted.

ghost use Rattle.std.specs.Prelude.{IfOk};
ghost use Rattle.std.specs.List.{All};
ghost use Rattle.frame_zones.specs.Reopening.{IsReopenable, AreSurvivorsOf};
ghost use Rattle.frame_zones.specs.Zones.{AreCoresOf};

use super::calls::taken;
use super::closings::held_in;
use super::memory::{open_for_two, two_of};
use core_frames::Survivors;
use frame_image::rebuild;
use frame_words::Fault;
use frame_zones::{ZoneCore, ZoneImage, Zones};
use std::alloc::Global;
use std::process::Abort;
use std::test::Fail;

// How many frames and how many huge frames are free.
fn free_in(zones: &Zones, core: &mut ZoneCore) -> (u64, u64)
    requires { AreCoresOf zones.now core.old }
    ensures { AreCoresOf zones.now core.new }
{
    (zones.free_frames(core), zones.free_huge(core))
}

// The images of all zones, once both cores are back.
fn closed(
    alloc: Global,
    zones: Zones,
    first: ZoneCore,
    second: ZoneCore,
) -> Result<Vec<ZoneImage>, Fault>
    requires first { AreCoresOf zones first }
    requires second { AreCoresOf zones second }
{
    let mut cores = Vec::with_capacity(alloc, 2)?;
    cores.push_reserved(first);
    cores.push_reserved(second);
    match zones.close(alloc, cores) {
        Ok(images) => Ok(images),
        Err(e) => Err(e.fault),
    }
}

// The image of a zone with counters anew.
fn again(alloc: Global, zone: &ZoneImage) -> Result<ZoneImage, Fault>
    ensures { IfOk result IsReopenable }
{
    Ok(ZoneImage {
        first: zone.first,
        image: rebuild(alloc, &zone.image)?,
    })
}

// The images with counters anew.
fn rebuilt(alloc: Global, images: &[ZoneImage]) -> Result<Vec<ZoneImage>, Fault>
    ensures { IfOk result (λ rebuilt. All IsReopenable rebuilt.items) }
{
    let mut rebuilt = Vec::new(alloc);
    for zone in images {
        let image = again(alloc, zone)?;
        rebuilt.push(image)?;
    }
    Ok(rebuilt)
}

// Zones at the images, two cores, and what was held.
fn opened(
    alloc: Global,
    images: &[ZoneImage],
) -> Result<(Zones, Vec<ZoneCore>, Vec<Survivors>), Fault>
    requires { All IsReopenable images.now }
    ensures cores { IfOk result (λ r. All (AreCoresOf r.0) r.1.items) }
    ensures survivors { IfOk result (λ r. AreSurvivorsOf r.0 r.2.items) }
{
    Zones::open_at(alloc, 2, images)
}

// The first frame of a block that is adopted, and given.
fn adopted(
    zones: &Zones,
    core: &mut ZoneCore,
    survivors: &mut Vec<Survivors>,
    zone: u32,
    frame: u32,
    order: u8,
) -> Result<u64, Fault>
    requires core { AreCoresOf zones.now core.old }
    requires survivors { AreSurvivorsOf zones.now survivors.old.items }
    ensures core { AreCoresOf zones.now core.new }
    ensures survivors { AreSurvivorsOf zones.now survivors.new.items }
{
    if zone as usize >= zones.count() {
        return Err(Fault::BadRange);
    }
    match zones.adopt(survivors, zone, frame, order) {
        Ok(block) => {
            let first = zones.frame_of(&block);
            zones.give(core, block);
            Ok(first)
        }
        Err(fault) => Err(fault),
    }
}

// Each block of a table is asked for: what is answered, and what is free then.
fn adopts_by_table(
    rt: &impl Abort,
    zones: &Zones,
    core: &mut ZoneCore,
    survivors: &mut Vec<Survivors>,
)
    requires core { AreCoresOf zones.now core.old }
    requires survivors { AreSurvivorsOf zones.now survivors.old.items }
    ensures { AreCoresOf zones.now core.new }
{
    for (zone, frame, order, answer, free, huge) in [
        (0, 256, 8, Ok(256), 880, 0),
        (0, 256, 8, Err(Fault::NotHeld), 880, 0),
        (0, 256, 7, Err(Fault::NotHeld), 880, 0),
        (1, 256, 8, Err(Fault::NotHeld), 880, 0),
        (1, 128, 7, Ok(8320), 1008, 0),
        (0, 0, 10, Err(Fault::BadOrder), 1008, 0),
        (0, 8, 3, Ok(8), 1016, 1),
        (1, 8, 2, Ok(8200), 1020, 1),
        (1, 8, 3, Err(Fault::NotHeld), 1020, 1),
        (1, 12, 2, Ok(8204), 1024, 2),
        (1, 512, 0, Err(Fault::NotHeld), 1024, 2),
    ] {
        let found = adopted(zones, core, survivors, zone, frame, order);
        assert!(rt; found == answer, "zone {zone}, frame {frame}");
        assert!(rt; free_in(zones, core) == (free, huge));
    }
}

// How many frames of each of two zones are held, and where these begin.
fn held_in_two(rt: &impl Abort, images: &[ZoneImage]) -> [(u64, u32); 2] {
    assert!(rt; images.len() == 2, "two zones");
    [
        (images[0].first, held_in(&images[0].image)),
        (images[1].first, held_in(&images[1].image)),
    ]
}

// The images of two zones of which a block of each is held, besides what is held back.
fn in_use(rt: &impl Abort, alloc: Global) -> Result<Vec<ZoneImage>, Fault> {
    let (zones, mut first, mut second) = open_for_two(alloc, 1)?;
    assert!(rt; free_in(&zones, &mut second) == (1008, 0));
    assert!(rt; taken(&zones, &mut first, 8) == Ok(256));
    assert!(rt; taken(&zones, &mut second, 7) == Ok(8320));
    assert!(rt; free_in(&zones, &mut first) == (624, 0));
    closed(alloc, zones, first, second)
}

// A huge frame is taken through each of two cores, and all is closed.
fn full(
    rt: &impl Abort,
    alloc: Global,
    zones: Zones,
    mut first: ZoneCore,
    mut second: ZoneCore,
) -> Result<Vec<ZoneImage>, Fault>
    requires first { AreCoresOf zones first }
    requires second { AreCoresOf zones second }
{
    assert!(rt; taken(&zones, &mut first, 9) == Ok(0));
    assert!(rt; taken(&zones, &mut second, 9) == Ok(8192));
    assert!(rt; free_in(&zones, &mut first) == (0, 0));
    closed(alloc, zones, first, second)
}

// All that the images hold is adopted and given; then each zone is taken whole.
fn taken_again(
    rt: &impl Abort,
    alloc: Global,
    images: &[ZoneImage],
) -> Result<Vec<ZoneImage>, Fault> {
    let images = rebuilt(alloc, images)?;
    let (zones, cores, mut survivors) = opened(alloc, &images)?;
    let (first, mut second) = two_of(&zones, cores)?;
    assert!(rt; free_in(&zones, &mut second) == (624, 0));
    adopts_by_table(rt, &zones, &mut second, &mut survivors);
    full(rt, alloc, zones, first, second)
}

#[test]
fn what_zones_held_is_adopted_once(rt: HostRuntime) -> Result<(), Fail> {
    let images = in_use(&rt, rt.alloc())?;
    assert!(rt; held_in_two(&rt, &images) == [(0, 264), (8192, 136)]);
    let images = taken_again(&rt, rt.alloc(), &images)?;
    assert!(rt; held_in_two(&rt, &images) == [(0, 512), (8192, 512)]);
    Ok(())
}
