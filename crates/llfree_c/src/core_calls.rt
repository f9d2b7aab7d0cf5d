//! What C calls of an allocator for several threads, each with a core of its own.

ghost use Rattle.std.specs.Prelude.{◌≡◌, ◌≢◌, ◌⊎◌, ◌≤◌, true, false, length};
ghost use Rattle.std.specs.List.{All};
ghost use Rattle.zone_slots.specs.Calls.{TakesFor, GivesFor, SplitsFor, KeepsCore};
ghost use Rattle.zone_slots.specs.FrameCalls.{LeavesRest};
ghost use Rattle.llfree_c.specs.CoreImages.{image_numbers_behind, LeavesCoreImage, LeavesNoCoreImage};
ghost use Rattle.llfree_c.specs.Images.{StaysBehind};
ghost use Rattle.llfree_c.specs.RefusedCalls.{RefusesTakeAs, RefusesSplitAs};
ghost use Rattle.llfree_c.specs.Status.{ok, bad_order, not_held, closed, contended};
ghost use Rattle.llfree_c.specs.OpenCores.{HasNoCores, IsClosedHandle, OpensCores};
ghost use Rattle.llfree_c.specs.SeenCores.{OnCores, frames_behind};

use crate::core_handle::CoreHandle;
use crate::core_images::leave_core_image;
use crate::core_openings::open_even;
use crate::core_steps::{give, split, take};
use crate::frame_steps::end;
use crate::ranges::FrameRange;
use crate::statuses::{CLOSED, OK};
use std::alloc::Global;

/// Opens a memory of so many frames, in zones of 2,097,152 frames, with a core behind each of these
/// closed handles. All frames are free but those of the ranges, which are never given out.
#[unsafe(no_mangle)]
pub extern "C" fn llfree_open(
    handles: &mut [CoreHandle],
    heap: Global,
    frames: u32,
    ranges: &[FrameRange],
) -> u32
    ensures open { result ≡ ok → All IsClosedHandle handles.old
        × OpensCores true frames ranges.now handles.new }
    ensures refused { result ≢ ok → handles.new ≡ handles.old }
    ensures why { result ≢ ok → HasNoCores frames ranges.now handles.old result }
{
    open_even(handles, heap, frames, ranges, true)
}

/// Takes a block of the order, and writes its first frame.
#[unsafe(no_mangle)]
pub extern "C" fn llfree_take(handle: &mut CoreHandle, order: u8, frame: &mut u32) -> u32
    ensures taken { result ≡ ok
        → OnCores (TakesFor order frame.new) handle.old.state.value handle.new.state.value }
    ensures refused { result ≢ ok → result ≢ closed
        → OnCores (RefusesTakeAs order result) handle.old.state.value handle.new.state.value }
    ensures rest { result ≢ closed
        → OnCores LeavesRest handle.old.state.value handle.new.state.value }
    ensures closed { result ≡ closed → (handle.old.live ≡ false) × (handle.new ≡ handle.old) }
    ensures stays { result ≢ ok → frame.new ≡ frame.old }
    ensures known { (result ≤ bad_order) ⊎ (result ≡ closed) ⊎ (result ≡ contended) }
{
    if !handle.live {
        return CLOSED;
    }
    take(handle.state.as_mut(), order, frame)
}

/// Gives exactly this block, where it is held, whichever core took it.
#[unsafe(no_mangle)]
pub extern "C" fn llfree_give(handle: &mut CoreHandle, frame: u32, order: u8) -> u32
    ensures given { result ≡ ok
        → OnCores (GivesFor order frame) handle.old.state.value handle.new.state.value }
    ensures same { result ≡ not_held
        → OnCores KeepsCore handle.old.state.value handle.new.state.value }
    ensures rest { result ≢ closed
        → OnCores LeavesRest handle.old.state.value handle.new.state.value }
    ensures closed { result ≡ closed → (handle.old.live ≡ false) × (handle.new ≡ handle.old) }
    ensures known { (result ≡ ok) ⊎ (result ≡ not_held) ⊎ (result ≡ closed) }
{
    if !handle.live {
        return CLOSED;
    }
    give(handle.state.as_mut(), frame, order)
}

/// Splits exactly this block into its halves, where it is held; any core gives each by itself then.
#[unsafe(no_mangle)]
pub extern "C" fn llfree_split(handle: &mut CoreHandle, frame: u32, order: u8) -> u32
    ensures split { result ≡ ok
        → OnCores (SplitsFor order frame) handle.old.state.value handle.new.state.value }
    ensures refused { result ≢ ok → result ≢ closed
        → OnCores (RefusesSplitAs order frame result) handle.old.state.value handle.new.state.value }
    ensures rest { result ≢ closed
        → OnCores LeavesRest handle.old.state.value handle.new.state.value }
    ensures closed { result ≡ closed → (handle.old.live ≡ false) × (handle.new ≡ handle.old) }
    ensures known { (result ≡ ok) ⊎ (result ≡ bad_order) ⊎ (result ≡ not_held)
        ⊎ (result ≡ closed) ⊎ (result ≡ contended) }
{
    if !handle.live {
        return CLOSED;
    }
    split(handle.state.as_mut(), frame, order)
}

/// The frames of the memory behind the handle; 0 where nothing is.
#[unsafe(no_mangle)]
pub extern "C" fn llfree_frames(handle: &mut CoreHandle, heap: Global) -> u32
    ensures frames { result ≡ frames_behind handle.old.state.value }
    ensures same { handle.new.state.value ≡ handle.old.state.value }
{
    let Some(state) = handle.take_out(heap) else {
        return 0;
    };
    let frames = state.frames();
    *handle = CoreHandle::of(state);
    frames
}

/// Closes the handle of a core, once all frames have gone back that rest with it. The last core of an allocator
/// frees it.
#[unsafe(no_mangle)]
pub extern "C" fn llfree_close(handle: &mut CoreHandle, heap: Global)
    ensures { handle.new.live ≡ false }
{
    let Some(mut state) = handle.take_out(heap) else {
        return;
    };
    state.drain();
    end(state);
}

/// Writes the numbers of the memory's image, as many as `llfree_image_words` says of each zone, zone after
/// zone, from the last open handle of a memory, once all frames have gone back that rest with its core, frees the
/// memory, and closes the handle.
#[unsafe(no_mangle)]
pub extern "C" fn llfree_close_image(
    handle: &mut CoreHandle,
    heap: Global,
    numbers: &mut [u64],
) -> u32
    ensures left { result ≡ ok → LeavesCoreImage handle.old.state.value numbers.new }
    ensures behind { result ≡ ok
        → StaysBehind (image_numbers_behind handle.old.state.value) numbers.old numbers.new }
    ensures closes { result ≡ ok → handle.new.live ≡ false }
    ensures same { result ≢ ok → handle.new.state.value ≡ handle.old.state.value }
    ensures refused { result ≢ ok → (numbers.new ≡ numbers.old)
        × LeavesNoCoreImage handle.old.state.value (length numbers.old) result }
{
    let Some(mut state) = handle.take_out(heap) else {
        return CLOSED;
    };
    let status = leave_core_image(&mut state, heap, numbers);
    if status != OK {
        *handle = CoreHandle::of(state);
    }
    status
}
