//! The cores of a fresh memory of zones, a box each.

ghost use Rattle.std.specs.Prelude.{◌≡◌, ◌≤◌, MatchBool, IfOk, IfErr, length, map, vec_len};
ghost use Rattle.std.specs.List.{All};
ghost use Rattle.frame_words.specs.Geometry.{most_cores};
ghost use Rattle.frame_zones.specs.Spans.{place_of_span};
ghost use Rattle.zone_slots.specs.Cuts.{MayBeHeldBack};
ghost use Rattle.zone_slots.specs.Layouts.{AreZoneFrames};
ghost use Rattle.zone_slots.specs.Openings.{AreAllCoresOf};
ghost use Rattle.zone_slots.specs.ZoneSpans.{AreSpansOf, MayBeUsed};
ghost use Rattle.llfree_c.specs.Openings.{IsUnopenedOnceRead};
ghost use Rattle.llfree_c.specs.Status.{no_memory};
ghost use Rattle.llfree_c.specs.OpenCores.{HasNoCores, HasNoCoresIn, AreNotFor, IsClosedHandle};
ghost use Rattle.llfree_c.specs.OpenCores.{ShareEven, ShareOne, ShareZones};

use crate::core_handle::CoreHandle;
use crate::core_openings::boxed;
use crate::ranges::{FrameRange, as_pairs, pairs_in};
use crate::statuses::{BAD_GEOMETRY, BAD_RANGE, NO_MEMORY, NOT_CLOSED};
use frame_words::{Fault, MOST_CORES};
use frame_zones::{MOST_ZONES, Span};
use std::alloc::Global;
use zone_slots::{CoreState, even_zones, open_bare_cores, open_cores, spans_of};

// All frames of the most zones.
const MOST_ZONE_FRAMES: u32 = 2147483648;

/// The cores of the zones of so many frames without a hole.
pub(crate) fn even_cores(
    handles: &[CoreHandle],
    heap: Global,
    frames: u32,
    ranges: &[FrameRange],
    has_slots: bool,
) -> Result<Vec<Box<CoreState, Global>>, u32>
    ensures count { IfOk result (λ cores. vec_len cores ≡ length handles.now) }
    ensures closed { IfOk result (λ _. All IsClosedHandle handles.now) }
    ensures cores { IfOk result (λ cores.
        ShareEven has_slots (length handles.now) frames ranges.now cores.items) }
    ensures err { IfErr result (HasNoCores frames ranges.now handles.now) }
{
    let count = cores_for(handles)?;
    if !are_zone_frames(frames) {
        return Err(BAD_GEOMETRY);
    }
    let ranges = pairs_in(heap, ranges)?;
    let Ok(zones) = even_zones(heap, frames) else {
        return Err(NO_MEMORY);
    };
    cores_in(heap, count, &zones, &ranges, has_slots)
}

/// The cores of the zones that C passed.
pub(crate) fn given_cores(
    handles: &[CoreHandle],
    heap: Global,
    zones: &[FrameRange],
    ranges: &[FrameRange],
    has_slots: bool,
) -> Result<Vec<Box<CoreState, Global>>, u32>
    ensures count { IfOk result (λ cores. vec_len cores ≡ length handles.now) }
    ensures closed { IfOk result (λ _. All IsClosedHandle handles.now) }
    ensures cores { IfOk result (λ cores.
        ShareZones has_slots (length handles.now) zones.now ranges.now cores.items) }
    ensures err { IfErr result (HasNoCoresIn zones.now ranges.now handles.now) }
{
    let count = cores_for(handles)?;
    if zones.len() > MOST_ZONES {
        return Err(BAD_GEOMETRY);
    }
    let ranges = pairs_in(heap, ranges)?;
    let zones = as_pairs(heap, zones)?;
    cores_in(heap, count, &zones, &ranges, has_slots)
}

/// How many cores there will be, where each handle is closed.
pub(crate) fn cores_for(handles: &[CoreHandle]) -> Result<u32, u32>
    ensures count { IfOk result (λ n. n ≡ length handles.now) }
    ensures some { IfOk result (λ n. 1 ≤ n) }
    ensures few { IfOk result (λ n. n ≤ most_cores) }
    ensures closed { IfOk result (λ _. All IsClosedHandle handles.now) }
    ensures err { IfErr result (AreNotFor handles.now) }
{
    for handle in handles {
        if handle.live {
            return Err(NOT_CLOSED);
        }
    }
    let count = handles.len();
    if count == 0 || count > MOST_CORES as usize {
        return Err(BAD_GEOMETRY);
    }
    Ok(count as u32)
}

/// Do zones have so many frames?
pub(crate) fn are_zone_frames(frames: u32) -> bool
    ensures { MatchBool result (AreZoneFrames frames) (¬ AreZoneFrames frames) }
{
    1 <= frames && frames <= MOST_ZONE_FRAMES
}

fn cores_in(
    heap: Global,
    cores: u32,
    zones: &[(u32, u32)],
    ranges: &[(u32, u32)],
    has_slots: bool,
) -> Result<Vec<Box<CoreState, Global>>, u32>
    ensures cores { IfOk result (λ boxes.
        ShareOne has_slots cores zones.now ranges.now boxes.items) }
    ensures err { IfErr result (IsUnopenedOnceRead cores zones.now ranges.now) }
{
    let spans = spans_for(heap, cores, zones, ranges)?;
    let states = states_of(heap, cores, &spans, has_slots)?;
    boxed(heap, states)
}

fn spans_for(
    heap: Global,
    cores: u32,
    zones: &[(u32, u32)],
    ranges: &[(u32, u32)],
) -> Result<Vec<Span>, u32>
    ensures spans { IfOk result (λ spans. AreSpansOf cores zones.now ranges.now spans.items) }
    ensures used { IfOk result (λ _. MayBeUsed cores zones.now) }
    ensures held_back { IfOk result (λ _. MayBeHeldBack zones.now ranges.now) }
    ensures err { IfErr result (IsUnopenedOnceRead cores zones.now ranges.now) }
{
    match spans_of(heap, cores, zones, ranges) {
        Ok(spans) => Ok(spans),
        Err(Fault::BadGeometry) => Err(BAD_GEOMETRY),
        Err(Fault::BadRange) => Err(BAD_RANGE),
        Err(_) => Err(NO_MEMORY),
    }
}

fn states_of(
    heap: Global,
    cores: u32,
    spans: &[Span],
    has_slots: bool,
) -> Result<Vec<CoreState>, u32>
    ensures cores { IfOk result (λ states.
        AreAllCoresOf has_slots cores (map place_of_span spans.now) states.items) }
    ensures err { IfErr result (λ e. e ≡ no_memory) }
{
    let opened = if has_slots {
        open_cores(heap, cores, spans)
    } else {
        open_bare_cores(heap, cores, spans)
    };
    match opened {
        Ok(states) => Ok(states),
        Err(_) => Err(NO_MEMORY),
    }
}
