//! Ranges of frames, and zones, as C passes them.

ghost use Rattle.std.specs.Prelude.{◌≡◌, IfOk, IfErr};
ghost use Rattle.llfree_c.specs.Openings.{pairs_of, HasNoPairs};
ghost use Rattle.llfree_c.specs.Status.{no_memory};

use crate::statuses::{BAD_RANGE, NO_MEMORY};
use core_frames::MOST_RANGES;
use std::alloc::Global;

/// So many frames from `first` on.
#[repr(C)]
#[derive(Clone, Copy)]
pub struct FrameRange {
    pub first: u32,
    pub frames: u32,
}

/// The ranges as pairs. Too many are refused before memory is asked for.
pub(crate) fn pairs_in(heap: Global, ranges: &[FrameRange]) -> Result<Vec<(u32, u32)>, u32>
    ensures pairs { IfOk result (λ pairs. pairs.items ≡ pairs_of ranges.now) }
    ensures err { IfErr result (HasNoPairs ranges.now) }
{
    if ranges.len() > MOST_RANGES {
        return Err(BAD_RANGE);
    }
    as_pairs(heap, ranges)
}

/// Each of them as a pair, however many there are.
pub(crate) fn as_pairs(heap: Global, ranges: &[FrameRange]) -> Result<Vec<(u32, u32)>, u32>
    ensures pairs { IfOk result (λ pairs. pairs.items ≡ pairs_of ranges.now) }
    ensures err { IfErr result (λ e. e ≡ no_memory) }
{
    let Ok(mut pairs) = Vec::with_capacity(heap, ranges.len()) else {
        return Err(NO_MEMORY);
    };
    for range in ranges {
        pairs.push_reserved((range.first, range.frames));
    }
    Ok(pairs)
}
