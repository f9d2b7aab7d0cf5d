//! Ranges that an opening holds back, cut at the zones.

ghost use Rattle.std.specs.Prelude.{◌≡◌, ◌+◌, ◌<◌, ◌≤◌, MatchBool, IfOk, IfErr, vec_len, length};
ghost use Rattle.frame_model.specs.Key.{AreRanges};
ghost use Rattle.zone_slots.specs.Layouts.{end_of, MayBeZone, MayBeLaidOut};
ghost use Rattle.zone_slots.specs.Cuts.{AreRangesApart, AreIn, AreInside, IsPieceOf, MayBeHeldBack, Meet};

use crate::layouts::ends_at_or_below;
use core_frames::MOST_RANGES;
use frame_words::Fault;
use std::alloc::Global;

/// May the zones hold these ranges back?
pub fn may_be_held_back(zones: &[(u32, u32)], ranges: &[(u32, u32)]) -> bool
    requires { MayBeLaidOut zones.now }
    ensures { MatchBool result (MayBeHeldBack zones.now ranges.now)
        (¬ MayBeHeldBack zones.now ranges.now) }
{
    ranges.len() <= MOST_RANGES && are_apart(ranges) && are_inside(zones, ranges)
}

// Is none empty, and does none begin before the one in front of it ends?
fn are_apart(ranges: &[(u32, u32)]) -> bool
    ensures { MatchBool result (AreRangesApart ranges.now) (¬ AreRangesApart ranges.now) }
{
    let mut from = 0;
    for &(first, frames) in ranges {
        if frames == 0 || u64::from(first) < from {
            return false;
        }
        from = u64::from(first) + u64::from(frames);
    }
    true
}

// Does each of their frames lie in a zone? None does in a hole.
fn are_inside(zones: &[(u32, u32)], ranges: &[(u32, u32)]) -> bool
    requires zones { MayBeLaidOut zones.now }
    requires ranges { AreRangesApart ranges.now }
    ensures { MatchBool result (AreInside zones.now ranges.now) (¬ AreInside zones.now ranges.now) }
{
    let mut from = 0;
    for &(first, frames) in zones {
        if meet(from, u64::from(first), ranges) {
            return false;
        }
        from = u64::from(first) + u64::from(frames);
    }
    if ends_at_or_below(ranges, from) < ranges.len() {
        return false;
    }
    true
}

// Does some frame from one to before another lie in a range?
fn meet(from: u64, end: u64, ranges: &[(u32, u32)]) -> bool
    requires { AreRangesApart ranges.now }
    ensures { MatchBool result (Meet from end ranges.now) (¬ Meet from end ranges.now) }
{
    if end <= from {
        return false;
    }
    let behind = ends_at_or_below(ranges, from);
    if behind == ranges.len() || u64::from(ranges[behind].0) >= end {
        return false;
    }
    true
}

/// What a zone with this first frame and so many frames has of the ranges, each piece counted from the
/// zone's first frame. Refused for lack of memory alone.
pub fn pieces_in(
    alloc: Global,
    first: u32,
    frames: u32,
    ranges: &[(u32, u32)],
) -> Result<Vec<(u32, u32)>, Fault>
    requires zone { MayBeZone (first, frames) }
    requires ranges { AreRangesApart ranges.now }
    ensures pieces { IfOk result (λ pieces. AreIn (first, frames) ranges.now pieces.items) }
    ensures lawful { IfOk result (λ pieces. AreRanges 0 frames pieces.items) }
    ensures count { IfOk result (λ pieces. vec_len pieces ≤ length ranges.now) }
    ensures err { IfErr result (λ e. e ≡ Fault.NoMemory) }
{
    let end = u64::from(first) + u64::from(frames);
    let mut pieces = Vec::new(alloc);
    for i in ends_at_or_below(ranges, u64::from(first))..ranges.len() {
        if u64::from(ranges[i].0) >= end {
            return Ok(pieces);
        }
        let Ok(()) = pieces.push(piece_of(first, frames, ranges[i])) else {
            return Err(Fault::NoMemory);
        };
    }
    Ok(pieces)
}

// What the zone has of the range.
fn piece_of(first: u32, frames: u32, range: (u32, u32)) -> (u32, u32)
    requires zone { MayBeZone (first, frames) }
    requires begins { range.0 < end_of (first, frames) }
    requires ends { first < end_of range }
    requires some { 1 ≤ range.1 }
    ensures { IsPieceOf (first, frames) range result }
{
    let from = first.max(range.0);
    let end = u64::from(first) + u64::from(frames);
    let range_end = u64::from(range.0) + u64::from(range.1);
    (from - first, (end.min(range_end) - u64::from(from)) as u32)
}
