//! Where the zones of a memory lie, whose frames are numbers of 32 bits.

ghost use Rattle.std.specs.Prelude.{◌≡◌, ◌<◌, ◌≤◌, MatchBool, MatchOption, IfOk, IfErr, length};
ghost use Rattle.zone_slots.specs.Layouts.{most_numbers, stretch_at, LiesInStretch, LiesInOne, MayBeZone, MayBeLaidOut};
ghost use Rattle.zone_slots.specs.Layouts.{AreEven, AreNoZonesFor, LieInOrder, EndAtOrBelow};

use frame_words::{CHILD_FRAMES, Fault, MOST_FRAMES};
use frame_zones::MOST_ZONES;
use std::alloc::Global;

/// As many frames as 32 bits number.
pub(crate) const MOST_NUMBERS: u64 = 4294967296;

/// May zones with these first frames and so many frames each be one memory?
pub fn may_be_laid_out(zones: &[(u32, u32)]) -> bool
    ensures { MatchBool result (MayBeLaidOut zones.now) (¬ MayBeLaidOut zones.now) }
{
    if zones.is_empty() || zones.len() > MOST_ZONES {
        return false;
    }
    let mut from = 0;
    for &(first, frames) in zones {
        if !may_follow(from, first, frames) {
            return false;
        }
        from = u64::from(first) + u64::from(frames.div_ceil(CHILD_FRAMES) * CHILD_FRAMES);
    }
    true
}

// May there be such a zone, and does it begin at or behind a frame?
fn may_follow(from: u64, first: u32, frames: u32) -> bool
    ensures { MatchBool result (MayBeZone (first, frames) × (from ≤ first))
        (¬ (MayBeZone (first, frames) × (from ≤ first))) }
{
    first % CHILD_FRAMES == 0
        && 1 <= frames
        && frames <= MOST_FRAMES
        && u64::from(first) + u64::from(frames) <= MOST_NUMBERS
        && from <= u64::from(first)
}

/// The zones of so many frames, from frame 0 on and without a hole: each but the last has 2,097,152
/// frames. Refused as `BadGeometry` where there is no frame, or more than 1,024 zones have.
pub fn even_zones(alloc: Global, frames: u32) -> Result<Vec<(u32, u32)>, Fault>
    ensures zones { IfOk result (λ zones. AreEven frames zones.items) }
    ensures lawful { IfOk result (λ zones. MayBeLaidOut zones.items) }
    ensures refused { IfErr result (AreNoZonesFor frames) }
{
    let count = frames.div_ceil(MOST_FRAMES);
    if count == 0 || count as usize > MOST_ZONES {
        return Err(Fault::BadGeometry);
    }
    let Ok(mut zones) = Vec::with_capacity(alloc, count as usize) else {
        return Err(Fault::NoMemory);
    };
    for zone in 0..count {
        let first = MOST_FRAMES * zone;
        zones.push_reserved((first, MOST_FRAMES.min(frames - first)));
    }
    Ok(zones)
}

/// The zone that the frame lies in, by bisection.
pub fn zone_of(zones: &[(u32, u32)], frame: u32) -> Option<usize>
    requires { MayBeLaidOut zones.now }
    ensures { MatchOption result (¬ LiesInOne frame zones.now)
        (λ z. (z < length zones.now) × LiesInStretch frame (stretch_at zones.now z)) }
{
    let behind = ends_at_or_below(zones, u64::from(frame));
    if behind < zones.len() && zones[behind].0 <= frame {
        Some(behind)
    } else {
        None
    }
}

/// How many of the stretches, which ascend, end at or below the frame: a bisection.
pub(crate) fn ends_at_or_below(stretches: &[(u32, u32)], frame: u64) -> usize
    requires { LieInOrder stretches.now }
    ensures { EndAtOrBelow frame stretches.now result }
{
    let mut low = 0;
    let mut high = stretches.len();
    while low < high {
        let middle = low + (high - low) / 2;
        let (first, frames) = stretches[middle];
        if u64::from(first) + u64::from(frames) <= frame {
            low = middle + 1;
        } else {
            high = middle;
        }
    }
    low
}
