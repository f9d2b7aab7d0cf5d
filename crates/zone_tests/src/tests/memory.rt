//! A memory of two zones, with holes between them and in each.

ghost use Rattle.std.specs.Prelude.{◌≡◌, IfOk, IfSome, length};
ghost use Rattle.std.specs.List.{All};
ghost use Rattle.frame_zones.specs.Zones.{AreCoresOf};

use frame_words::{Fault, Geometry};
use frame_zones::{Span, ZoneCore, Zones};
use std::alloc::Global;

// A zone whose frames 8 to 15 are held back.
pub(super) fn span(alloc: Global, first: u64, geometry: Geometry) -> Result<Span, Fault> {
    let mut ranges = Vec::with_capacity(alloc, 1)?;
    ranges.push_reserved((8, 8));
    Ok(Span {
        first,
        geometry,
        ranges,
    })
}

// Two such zones, from frames 0 and 8,192 on.
pub(super) fn open_two(
    alloc: Global,
    children: u32,
    cores: u32,
) -> Result<(Zones, Vec<ZoneCore>), Fault>
    ensures cores { IfOk result (λ r. All (AreCoresOf r.0) r.1.items) }
    ensures count { IfOk result (λ r. length r.1.items ≡ cores) }
    ensures as_many { IfOk result (λ r. r.0.cores ≡ cores) }
{
    let geometry = Geometry::new(children, cores)?;
    let mut spans = Vec::with_capacity(alloc, 2)?;
    spans.push_reserved(span(alloc, 0, geometry)?);
    spans.push_reserved(span(alloc, 8192, geometry)?);
    Zones::open(alloc, cores, &spans)
}

// The last core of a list.
pub(super) fn next_core(zones: &Zones, cores: &mut Vec<ZoneCore>) -> Option<ZoneCore>
    requires { All (AreCoresOf zones.now) cores.old.items }
    ensures core { IfSome result (AreCoresOf zones.now) }
    ensures left { All (AreCoresOf zones.now) cores.new.items }
{
    let _ = zones;
    cores.pop()
}

// The last two cores of a list; the one before the last is first.
pub(super) fn two_of(zones: &Zones, mut cores: Vec<ZoneCore>) -> Result<(ZoneCore, ZoneCore), Fault>
    requires { All (AreCoresOf zones.now) cores.items }
    ensures first { IfOk result (λ r. AreCoresOf zones.entry.now r.0) }
    ensures second { IfOk result (λ r. AreCoresOf zones.entry.now r.1) }
{
    let Some(second) = next_core(zones, &mut cores) else {
        return Err(Fault::MissingCores);
    };
    let Some(first) = next_core(zones, &mut cores) else {
        return Err(Fault::MissingCores);
    };
    Ok((first, second))
}

// Two such zones with two cores: the home of each is the zone of its number.
pub(super) fn open_for_two(
    alloc: Global,
    children: u32,
) -> Result<(Zones, ZoneCore, ZoneCore), Fault>
    ensures first { IfOk result (λ r. AreCoresOf r.0 r.1) }
    ensures second { IfOk result (λ r. AreCoresOf r.0 r.2) }
{
    let (zones, cores) = open_two(alloc, children, 2)?;
    let (first, second) = two_of(&zones, cores)?;
    Ok((zones, first, second))
}
