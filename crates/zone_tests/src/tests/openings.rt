//! Openings that are refused.

use super::memory::{open_two, span};
use frame_words::{Fault, Geometry};
use frame_zones::{Span, ZoneCore, Zones};
use std::alloc::Global;
use std::test::Fail;

// An opening of a zone of one child and one core, and of one from another frame on.
fn open_beside(alloc: Global, first: u64, cores: u32) -> Result<(Zones, Vec<ZoneCore>), Fault> {
    let mut spans = Vec::with_capacity(alloc, 2)?;
    spans.push_reserved(span(alloc, 1024, Geometry::new(1, 1)?)?);
    spans.push_reserved(span(alloc, first, Geometry::new(1, cores)?)?);
    Zones::open(alloc, 1, &spans)
}

#[test]
fn spans_are_refused_by_the_rule(rt: HostRuntime) -> Result<(), Fail> {
    for (first, cores, lawful) in [
        (1536, 1, true),
        (4503599627369984, 1, true),
        (4503599627370496, 1, false),
        (1535, 1, false),
        (1537, 1, false),
        (1024, 1, false),
        (0, 1, false),
        (1536, 2, false),
    ] {
        let fault = open_beside(rt.alloc(), first, cores).err();
        let want = if lawful { None } else { Some(Fault::BadRange) };
        assert!(rt; fault == want, "from {first} on");
    }
    assert!(rt; Zones::open(rt.alloc(), 1, &[]).err() == Some(Fault::BadRange));
    Ok(())
}

// An opening of two zones of one child, of which the second is to hold this range back.
fn open_holding(alloc: Global, range: (u32, u32)) -> Result<(Zones, Vec<ZoneCore>), Fault> {
    let geometry = Geometry::new(1, 1)?;
    let mut ranges = Vec::with_capacity(alloc, 1)?;
    ranges.push_reserved(range);
    let mut spans = Vec::with_capacity(alloc, 2)?;
    spans.push_reserved(span(alloc, 0, geometry)?);
    spans.push_reserved(Span {
        first: 512,
        geometry,
        ranges,
    });
    Zones::open(alloc, 1, &spans)
}

#[test]
fn ranges_of_a_later_zone_are_refused(rt: HostRuntime) -> Result<(), Fail> {
    for (first, frames, lawful) in [
        (0, 512, true),
        (511, 1, true),
        (0, 0, false),
        (511, 2, false),
        (512, 1, false),
    ] {
        let fault = open_holding(rt.alloc(), (first, frames)).err();
        let want = if lawful { None } else { Some(Fault::BadRange) };
        assert!(rt; fault == want, "{frames} frames from {first} on");
    }
    Ok(())
}

// Where an allocation is refused (`rt try --test --fail-alloc N`), the other opening is still made.
#[test]
fn an_opening_is_made_or_wants_memory(rt: HostRuntime) -> Result<(), Fail> {
    let mut made = 0u32;
    for _i in 0..2u32 {
        match open_two(rt.alloc(), 1, 2) {
            Ok((zones, _cores)) => {
                assert!(rt; zones.count() == 2);
                made = 1;
            }
            Err(fault) => assert!(rt; fault == Fault::NoMemory),
        }
    }
    assert!(rt; made == 1);
    Ok(())
}
