//! What C calls through a core to be told how much is free.

ghost use Rattle.std.specs.Prelude.{◌*◌, ◌≤◌};
ghost use Rattle.frame_words.specs.Geometry.{child_frames};
ghost use Rattle.zone_slots.specs.FreeCounts.{CountsFrames, CountsHuge, CountsFramesOf, CountsHugeOf};
ghost use Rattle.llfree_c.specs.FreeCounts.{CountsBehind};
ghost use Rattle.llfree_c.specs.SeenCores.{frames_behind};

use crate::core_handle::CoreHandle;
use std::alloc::Global;

/// How many frames are free, by one load for each four children; 0 where nothing is behind the handle.
#[unsafe(no_mangle)]
pub extern "C" fn llfree_free_frames(handle: &mut CoreHandle, heap: Global) -> u32
    ensures counts { CountsBehind CountsFrames result handle.old.state.value handle.new.state.value }
    ensures few { result ≤ frames_behind handle.old.state.value }
{
    let Some(mut state) = handle.take_out(heap) else {
        return 0;
    };
    let frames = state.free_frames();
    *handle = CoreHandle::of(state);
    frames
}

/// How many huge frames are free, that is children of which all frames are, by the same loads; 0 where
/// nothing is behind the handle.
#[unsafe(no_mangle)]
pub extern "C" fn llfree_free_huge(handle: &mut CoreHandle, heap: Global) -> u32
    ensures counts { CountsBehind CountsHuge result handle.old.state.value handle.new.state.value }
    ensures few { child_frames * result ≤ frames_behind handle.old.state.value }
{
    let Some(mut state) = handle.take_out(heap) else {
        return 0;
    };
    let huge = state.free_huge();
    *handle = CoreHandle::of(state);
    huge
}

/// How many frames are free in the zone of this number, by the same loads of its entries; 0 where there is no
/// such zone, and where nothing is behind the handle.
#[unsafe(no_mangle)]
pub extern "C" fn llfree_free_frames_of(handle: &mut CoreHandle, heap: Global, zone: u32) -> u32
    ensures { CountsBehind (CountsFramesOf zone) result handle.old.state.value
        handle.new.state.value }
{
    let Some(mut state) = handle.take_out(heap) else {
        return 0;
    };
    let frames = state.free_frames_of(zone);
    *handle = CoreHandle::of(state);
    frames
}

/// How many huge frames are free in the zone of this number, in the same way.
#[unsafe(no_mangle)]
pub extern "C" fn llfree_free_huge_of(handle: &mut CoreHandle, heap: Global, zone: u32) -> u32
    ensures { CountsBehind (CountsHugeOf zone) result handle.old.state.value
        handle.new.state.value }
{
    let Some(mut state) = handle.take_out(heap) else {
        return 0;
    };
    let huge = state.free_huge_of(zone);
    *handle = CoreHandle::of(state);
    huge
}
