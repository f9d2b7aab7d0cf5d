//! The ranges that zones are to hold back.

ghost use Rattle.std.specs.Prelude.{MatchBool};
ghost use Rattle.std.specs.List.{All};
ghost use Rattle.core_frames.specs.Ranges.{MayFollow, MayHoldBack};
ghost use Rattle.frame_zones.specs.Spans.{HoldsLawful};

use crate::spans::Span;
use core_frames::MOST_RANGES;
use frame_words::Geometry;

/// May each of the zones hold its ranges back?
pub(crate) fn may_hold_back(spans: &[Span]) -> bool
    ensures { MatchBool result (All HoldsLawful spans.now) (¬ All HoldsLawful spans.now) }
{
    for span in spans {
        if !may_be_held_back(span.geometry, &span.ranges) {
            return false;
        }
    }
    true
}

fn may_be_held_back(geometry: Geometry, ranges: &[(u32, u32)]) -> bool
    ensures { MatchBool result (MayHoldBack geometry ranges.now) (¬ MayHoldBack geometry ranges.now) }
{
    if ranges.len() > MOST_RANGES {
        return false;
    }
    let end = geometry.frames();
    let mut from = 0;
    for &(first, count) in ranges {
        if !may_follow(from, end, first, count) {
            return false;
        }
        from = first + count;
    }
    true
}

// May a range follow those that end at a frame, in a zone that ends at another?
fn may_follow(from: u32, end: u32, first: u32, count: u32) -> bool
    ensures { MatchBool result
        (MayFollow from end (first, count))
        (¬ MayFollow from end (first, count)) }
{
    count > 0 && from <= first && first <= end && count <= end - first
}
