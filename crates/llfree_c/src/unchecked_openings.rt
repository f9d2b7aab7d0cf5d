//! The opening of a memory that keeps no list of the blocks that are out.

ghost use Rattle.std.specs.Prelude.{◌≡◌, ◌≢◌, false};
ghost use Rattle.std.specs.List.{All};
ghost use Rattle.llfree_c.specs.Status.{ok};
ghost use Rattle.llfree_c.specs.OpenCores.{HasNoCores, IsClosedHandle, OpensCores};

use crate::core_handle::CoreHandle;
use crate::core_openings::open_even;
use crate::ranges::FrameRange;
use std::alloc::Global;

/// As `llfree_open`, but only blocks that C carries can be taken, given and split.
#[unsafe(no_mangle)]
pub extern "C" fn llfree_open_unchecked(
    handles: &mut [CoreHandle],
    heap: Global,
    frames: u32,
    ranges: &[FrameRange],
) -> u32
    ensures open { result ≡ ok → All IsClosedHandle handles.old
        × OpensCores false frames ranges.now handles.new }
    ensures refused { result ≢ ok → handles.new ≡ handles.old }
    ensures why { result ≢ ok → HasNoCores frames ranges.now handles.old result }
{
    open_even(handles, heap, frames, ranges, false)
}
