//! What an opening of zones is asked for: where each lies, and what it holds back.

ghost use Rattle.std.specs.Prelude.{◌≡◌, ◌≤◌, IfOk, IfErr, length};
ghost use Rattle.frame_words.specs.Geometry.{most_cores};
ghost use Rattle.frame_model.specs.Key.{most_ranges};
ghost use Rattle.zone_slots.specs.Layouts.{MayBeZone};
ghost use Rattle.zone_slots.specs.Openings.{MayBeOpened};
ghost use Rattle.zone_slots.specs.Cuts.{AreRangesApart, MayBeHeldBack};
ghost use Rattle.zone_slots.specs.ZoneSpans.{AreNoSpansFor, AreSpansOf, IsSpanOf, MayBeUsed};

use crate::cuts::{may_be_held_back, pieces_in};
use crate::layouts::may_be_laid_out;
use frame_words::{CHILD_FRAMES, Fault, Geometry, MOST_CORES};
use frame_zones::Span;
use std::alloc::Global;

/// The spans of zones with these first frames and so many frames each, for so many cores; each holds
/// back what it has of the ranges. Refused as `BadGeometry` where zones may not lie so or there are not
/// 1 to 1,024 cores, else as `BadRange` where the ranges may not be held back, else for lack of memory.
pub fn spans_of(
    alloc: Global,
    cores: u32,
    zones: &[(u32, u32)],
    ranges: &[(u32, u32)],
) -> Result<Vec<Span>, Fault>
    ensures spans { IfOk result (λ spans. AreSpansOf cores zones.now ranges.now spans.items) }
    ensures used { IfOk result (λ _. MayBeUsed cores zones.now × MayBeHeldBack zones.now ranges.now) }
    ensures opened { IfOk result (λ spans. MayBeOpened cores spans.items) }
    ensures refused { IfErr result (AreNoSpansFor cores zones.now ranges.now) }
{
    if cores < 1 || cores > MOST_CORES || !may_be_laid_out(zones) {
        return Err(Fault::BadGeometry);
    }
    if !may_be_held_back(zones, ranges) {
        return Err(Fault::BadRange);
    }
    let Ok(mut spans) = Vec::with_capacity(alloc, zones.len()) else {
        return Err(Fault::NoMemory);
    };
    for &(first, frames) in zones {
        let Ok(span) = span_of(alloc, cores, first, frames, ranges) else {
            return Err(Fault::NoMemory);
        };
        spans.push_reserved(span);
    }
    Ok(spans)
}

fn span_of(
    alloc: Global,
    cores: u32,
    first: u32,
    frames: u32,
    ranges: &[(u32, u32)],
) -> Result<Span, Fault>
    requires cores { (1 ≤ cores) × (cores ≤ most_cores) }
    requires zone { MayBeZone (first, frames) }
    requires few { length ranges.now ≤ most_ranges }
    requires ranges { AreRangesApart ranges.now }
    ensures { IfOk result (λ span. IsSpanOf cores ranges.now (first, frames) span) }
{
    let geometry = Geometry::for_machine(frames.div_ceil(CHILD_FRAMES), cores, frames)?;
    let ranges = pieces_in(alloc, first, frames, ranges)?;
    Ok(Span {
        first: u64::from(first),
        geometry,
        ranges,
    })
}
