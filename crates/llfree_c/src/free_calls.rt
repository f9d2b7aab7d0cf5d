//! What C calls to be told how much is free for one thread, and whether a block is held.

ghost use Rattle.std.specs.Prelude.{◌≡◌, MatchBool};
ghost use Rattle.llfree_c.specs.FreeCounts.{CountsIn, AreFreeFrames, AreFreeChildren, IsOutBehind};

use crate::handle::PlainHandle;
use std::alloc::Global;

/// How many frames are free, exactly; 0 where nothing is behind the handle.
#[unsafe(no_mangle)]
pub extern "C" fn llfree_plain_free_frames(handle: &mut PlainHandle, heap: Global) -> u32
    ensures exact { CountsIn AreFreeFrames result handle.old.state.value }
    ensures same { handle.new.state.value ≡ handle.old.state.value }
{
    let Some(mut state) = handle.take_out(heap) else {
        return 0;
    };
    let frames = state.free_frames();
    *handle = PlainHandle::of(state);
    frames
}

/// How many huge frames are free, that is children of which no frame is held, exactly; 0 where nothing
/// is behind the handle.
#[unsafe(no_mangle)]
pub extern "C" fn llfree_plain_free_huge(handle: &mut PlainHandle, heap: Global) -> u32
    ensures exact { CountsIn AreFreeChildren result handle.old.state.value }
    ensures same { handle.new.state.value ≡ handle.old.state.value }
{
    let Some(mut state) = handle.take_out(heap) else {
        return 0;
    };
    let huge = state.free_huge();
    *handle = PlainHandle::of(state);
    huge
}

/// Whether exactly this block is held, so that it can be given; nothing is where nothing is behind the
/// handle.
#[unsafe(no_mangle)]
pub extern "C" fn llfree_plain_is_held(
    handle: &mut PlainHandle,
    heap: Global,
    frame: u32,
    order: u8,
) -> bool
    ensures held { MatchBool result (IsOutBehind order frame handle.old.state.value)
        (¬ IsOutBehind order frame handle.old.state.value) }
    ensures same { handle.new.state.value ≡ handle.old.state.value }
{
    let Some(state) = handle.take_out(heap) else {
        return false;
    };
    let is_held = state.is_out(frame, order);
    *handle = PlainHandle::of(state);
    is_held
}
