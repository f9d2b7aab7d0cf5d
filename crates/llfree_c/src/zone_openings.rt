//! Openings of zones that C passes, with holes between them.

ghost use Rattle.std.specs.Prelude.{◌≡◌, ◌≢◌, true, false};
ghost use Rattle.std.specs.List.{All};
ghost use Rattle.llfree_c.specs.Status.{ok};
ghost use Rattle.llfree_c.specs.OpenCores.{HasNoCoresIn, IsClosedHandle, OpensZones};

use crate::core_handle::CoreHandle;
use crate::core_openings::open_given;
use crate::ranges::FrameRange;
use std::alloc::Global;

/// Opens a memory of these zones, with a core behind each of these closed handles. All frames of the
/// zones are free but those of the ranges, which are never given out. Frames, those of the ranges too,
/// are numbered over all zones.
#[unsafe(no_mangle)]
pub extern "C" fn llfree_open_zones(
    handles: &mut [CoreHandle],
    heap: Global,
    zones: &[FrameRange],
    ranges: &[FrameRange],
) -> u32
    ensures open { result ≡ ok → All IsClosedHandle handles.old
        × OpensZones true zones.now ranges.now handles.new }
    ensures refused { result ≢ ok → handles.new ≡ handles.old }
    ensures why { result ≢ ok → HasNoCoresIn zones.now ranges.now handles.old result }
{
    open_given(handles, heap, zones, ranges, true)
}

/// As `llfree_open_zones`, but only blocks that C carries can be taken, given and split.
#[unsafe(no_mangle)]
pub extern "C" fn llfree_open_zones_unchecked(
    handles: &mut [CoreHandle],
    heap: Global,
    zones: &[FrameRange],
    ranges: &[FrameRange],
) -> u32
    ensures open { result ≡ ok → All IsClosedHandle handles.old
        × OpensZones false zones.now ranges.now handles.new }
    ensures refused { result ≢ ok → handles.new ≡ handles.old }
    ensures why { result ≢ ok → HasNoCoresIn zones.now ranges.now handles.old result }
{
    open_given(handles, heap, zones, ranges, false)
}
