//! Where zones lie, and the rule for it.

ghost use Rattle.std.specs.Prelude.{◌≡◌, ◌≤◌, MatchBool, map};
ghost use Rattle.frame_zones.specs.Spans.{most_zone_frames, place_of_span, place_at, end_at, MayLie, MayBeZones};

use crate::image::ZoneImage;
use frame_words::{CHILD_FRAMES, Geometry};

/// The most zones of a memory.
pub const MOST_ZONES: usize = 1024;

// 64 bits address so many frames of 4 KiB.
const ADDRESSED_FRAMES: u64 = 4503599627370496;

const CHILD: u64 = CHILD_FRAMES as u64;

/// A zone that is to be opened.
#[derive(Drop)]
pub struct Span {
    /// Its first frame among all of the memory, a multiple of 512.
    pub first: u64,
    pub geometry: Geometry,
    /// What its opening holds back: first frames, counted from the zone's own first one, and how
    /// many frames there are from each.
    pub ranges: Vec<(u32, u32)>,
}

/// May zones of so many cores lie like this?
pub fn may_be_zones(cores: u32, spans: &[Span]) -> bool
    ensures { MatchBool result (MayBeZones cores (map place_of_span spans.now))
        (¬ MayBeZones cores (map place_of_span spans.now)) }
{
    if spans.is_empty() || spans.len() > MOST_ZONES {
        return false;
    }
    let mut from = 0;
    for span in spans {
        if !may_follow(cores, from, span.first, span.geometry) {
            return false;
        }
        from = end_of(span.first, span.geometry);
    }
    true
}

/// May zones of so many cores lie as these did?
pub(crate) fn may_be_zones_again(cores: u32, images: &[ZoneImage]) -> bool
    ensures { MatchBool result (MayBeZones cores (map place_at images.now))
        (¬ MayBeZones cores (map place_at images.now)) }
{
    if images.is_empty() || images.len() > MOST_ZONES {
        return false;
    }
    let mut from = 0;
    for zone in images {
        let geometry = zone.image.geometry();
        if !may_follow(cores, from, zone.first, geometry) {
            return false;
        }
        from = end_of(zone.first, geometry);
    }
    true
}

// May a zone lie there, behind those that end at a frame?
fn may_follow(cores: u32, from: u64, first: u64, geometry: Geometry) -> bool
    ensures { MatchBool result
        (MayLie cores from first geometry.cores geometry.children)
        (¬ MayLie cores from first geometry.cores geometry.children) }
{
    geometry.cores == cores
        && first % CHILD == 0
        && from <= first
        && first <= ADDRESSED_FRAMES
        && CHILD * u64::from(geometry.children) <= ADDRESSED_FRAMES - first
}

// The frame past the last child.
fn end_of(first: u64, geometry: Geometry) -> u64
    requires { end_at first geometry.children ≤ most_zone_frames }
    ensures { result ≡ end_at first geometry.children }
{
    first + CHILD * u64::from(geometry.children)
}
