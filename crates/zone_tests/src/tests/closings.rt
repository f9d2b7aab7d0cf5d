//! What is held once the zones are closed, one by one or in one call, which wants each core.

ghost use Rattle.std.specs.Prelude.{IfOk};
ghost use Rattle.std.specs.List.{All};
ghost use Rattle.frame_zones.specs.Zones.{HasCoresIn, AreCoresOf};

use super::calls::taken;
use super::memory::open_for_two;
use frame_core::Image;
use frame_words::Fault;
use frame_zones::{ZoneCore, Zones, ZonesFault};
use std::alloc::Global;
use std::test::Fail;

// How many frames are held.
pub(super) fn held_in(image: &Image) -> u32 {
    let mut held = 0u32;
    for child in 0..image.geometry().children() {
        held = held.saturating_add(512 - image.free(child).min(512));
    }
    held
}

// Closes the last zone.
fn close_last(alloc: Global, zones: Zones, cores: &mut Vec<ZoneCore>) -> Result<(Zones, u32), Fault>
    requires { All (HasCoresIn zones.zones.items) cores.old.items }
    ensures { IfOk result (λ r. All (HasCoresIn r.0.zones.items) cores.new.items) }
{
    if zones.count() == 0 {
        return Err(Fault::BadRange);
    }
    let Ok((zones, zone, parts)) = zones.part_last(alloc, cores) else {
        return Err(Fault::NoMemory);
    };
    match zone.close(alloc, parts) {
        Ok(image) => Ok((zones, held_in(&image))),
        Err(e) => Err(e.fault),
    }
}

// How many frames of both zones are held, once both cores are back.
pub(super) fn held_once_closed(
    alloc: Global,
    zones: Zones,
    first: ZoneCore,
    second: ZoneCore,
) -> Result<u32, Fault>
    requires first { AreCoresOf zones first }
    requires second { AreCoresOf zones second }
{
    let mut cores = Vec::with_capacity(alloc, 2)?;
    cores.push_reserved(first);
    cores.push_reserved(second);
    let (zones, upper) = close_last(alloc, zones, &mut cores)?;
    let (zones, lower) = close_last(alloc, zones, &mut cores)?;
    if zones.count() != 0 {
        return Err(Fault::BadRange);
    }
    Ok(lower.saturating_add(upper))
}

// How many frames of each of two zones are held, once all cores are back.
pub(super) fn held_in_each(
    alloc: Global,
    zones: Zones,
    cores: Vec<ZoneCore>,
) -> Result<(u32, u32), Fault>
    requires { All (HasCoresIn zones.zones.items) cores.items }
{
    match zones.close(alloc, cores) {
        Ok(images) if images.len() == 2 => Ok((
            held_in(&images[0].image),
            held_in(&images[1].image),
        )),
        Ok(_) => Err(Fault::BadRange),
        Err(e) => Err(e.fault),
    }
}

// No zone is closed without the second core, and both are once it is handed in.
#[test]
fn closing_wants_each_core(rt: HostRuntime) -> Result<(), Fail> {
    let (zones, mut first, second) = open_for_two(rt.alloc(), 1)?;
    assert!(rt; taken(&zones, &mut first, 8) == Ok(256));
    let mut cores = Vec::with_capacity(rt.alloc(), 1)?;
    cores.push_reserved(first);
    let Err(
        ZonesFault {
            fault,
            zones,
            cores,
            images,
        },
    ) = zones.close(rt.alloc(), cores)
    else {
        panic!(rt; "they closed without a core");
    };
    let Fault::MissingCores = fault else {
        panic!(rt; "{fault}");
    };
    assert!(rt; (zones.count(), cores.len(), images.len()) == (2, 1, 0));
    let mut cores = cores;
    cores.push(second)?;
    assert!(rt; held_in_each(rt.alloc(), zones, cores)? == (8 + 256, 8));
    Ok(())
}
