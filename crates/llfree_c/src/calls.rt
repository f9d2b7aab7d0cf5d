//! What C calls of an allocator for one thread.

ghost use Rattle.std.specs.Prelude.{◌≡◌, ◌≢◌, ◌⊎◌, ◌≤◌, true, false, length};
ghost use Rattle.llfree_c.specs.Images.{image_words, LeavesImage, memory_behind, IsUnwritten, StaysBehind};
ghost use Rattle.llfree_c.specs.Openings.{IsUnopened};
ghost use Rattle.llfree_c.specs.Status.{ok, no_block, bad_order, not_held, closed, not_closed};
ghost use Rattle.llfree_c.specs.Seen.{Both, OpensFresh, plain_frames, BlockTaken, NoneWasFree, HasNoOrder};
ghost use Rattle.llfree_c.specs.Seen.{BlockGiven, BlockSplit, HasNoHalves, WasNotOut};

use crate::crossings::may_cross;
use crate::handle::PlainHandle;
use crate::plain::Plain;
use crate::ranges::FrameRange;
use crate::statuses::{CLOSED, NO_MEMORY, NOT_CLOSED, OK};
use std::alloc::Global;

/// Opens an allocator of so many frames behind a closed handle. All frames are free but those of the
/// ranges, which are never given out.
#[unsafe(no_mangle)]
pub extern "C" fn llfree_plain_open(
    handle: &mut PlainHandle,
    heap: Global,
    frames: u32,
    ranges: &[FrameRange],
) -> u32
    ensures open { result ≡ ok → (handle.old.live ≡ false)
        × OpensFresh frames ranges.now handle.new.state.value }
    ensures refused { result ≢ ok → handle.new ≡ handle.old }
    ensures why { result ≢ ok → ((result ≡ not_closed) × (handle.old.live ≡ true))
        ⊎ IsUnopened frames 1 ranges.now result }
{
    if handle.live {
        return NOT_CLOSED;
    }
    let plain = match Plain::open(heap, frames, ranges) {
        Ok(plain) => plain,
        Err(status) => return status,
    };
    let Ok(state) = Box::new(heap, plain) else {
        return NO_MEMORY;
    };
    *handle = PlainHandle::of(state);
    may_cross(handle);
    OK
}

/// Takes a block of the order, and writes its first frame.
#[unsafe(no_mangle)]
pub extern "C" fn llfree_plain_take(
    handle: &mut PlainHandle,
    heap: Global,
    order: u8,
    frame: &mut u32,
) -> u32
    ensures taken { result ≡ ok
        → Both (BlockTaken order frame.new) handle.old.state.value handle.new.state.value }
    ensures none { result ≡ no_block
        → Both (NoneWasFree order) handle.old.state.value handle.new.state.value }
    ensures order { result ≡ bad_order
        → Both (HasNoOrder order) handle.old.state.value handle.new.state.value }
    ensures closed { result ≡ closed → (handle.old.live ≡ false) × (handle.new ≡ handle.old) }
    ensures refused { result ≢ ok → frame.new ≡ frame.old }
    ensures known { (result ≤ bad_order) ⊎ (result ≡ closed) }
{
    let Some(mut state) = handle.take_out(heap) else {
        return CLOSED;
    };
    let status = state.take(order, frame);
    *handle = PlainHandle::of(state);
    status
}

/// Gives exactly this block, where it is held.
#[unsafe(no_mangle)]
pub extern "C" fn llfree_plain_give(
    handle: &mut PlainHandle,
    heap: Global,
    frame: u32,
    order: u8,
) -> u32
    ensures given { result ≡ ok
        → Both (BlockGiven order frame) handle.old.state.value handle.new.state.value }
    ensures closed { result ≡ closed → (handle.old.live ≡ false) × (handle.new ≡ handle.old) }
    ensures refused { result ≡ not_held
        → Both (WasNotOut order frame) handle.old.state.value handle.new.state.value }
    ensures known { (result ≡ ok) ⊎ (result ≡ not_held) ⊎ (result ≡ closed) }
{
    let Some(mut state) = handle.take_out(heap) else {
        return CLOSED;
    };
    let status = state.give(frame, order);
    *handle = PlainHandle::of(state);
    status
}

/// Splits exactly this block into its halves, where it is held; each is given by itself then.
#[unsafe(no_mangle)]
pub extern "C" fn llfree_plain_split(
    handle: &mut PlainHandle,
    heap: Global,
    frame: u32,
    order: u8,
) -> u32
    ensures split { result ≡ ok
        → Both (BlockSplit order frame) handle.old.state.value handle.new.state.value }
    ensures whole { result ≡ bad_order
        → Both (HasNoHalves order) handle.old.state.value handle.new.state.value }
    ensures closed { result ≡ closed → (handle.old.live ≡ false) × (handle.new ≡ handle.old) }
    ensures refused { result ≡ not_held
        → Both (WasNotOut order frame) handle.old.state.value handle.new.state.value }
    ensures known { (result ≡ ok) ⊎ (result ≡ bad_order) ⊎ (result ≡ not_held) ⊎ (result ≡ closed) }
{
    let Some(mut state) = handle.take_out(heap) else {
        return CLOSED;
    };
    let status = state.split(frame, order);
    *handle = PlainHandle::of(state);
    status
}

/// The frames of the memory behind the handle; 0 where nothing is.
#[unsafe(no_mangle)]
pub extern "C" fn llfree_plain_frames(handle: &mut PlainHandle, heap: Global) -> u32
    ensures frames { result ≡ plain_frames handle.old.state.value }
    ensures same { handle.new.state.value ≡ handle.old.state.value }
{
    let Some(state) = handle.take_out(heap) else {
        return 0;
    };
    let frames = state.frames;
    *handle = PlainHandle::of(state);
    frames
}

/// Writes the numbers of the memory's image, as many as `llfree_image_words` says, frees what the
/// handle stands for, and closes it.
#[unsafe(no_mangle)]
pub extern "C" fn llfree_plain_close_image(
    handle: &mut PlainHandle,
    heap: Global,
    numbers: &mut [u64],
) -> u32
    ensures left { result ≡ ok → LeavesImage handle.old.state.value numbers.new }
    ensures behind { result ≡ ok
        → StaysBehind (image_words (plain_frames handle.old.state.value)) numbers.old numbers.new }
    ensures closes { result ≡ ok → handle.new.live ≡ false }
    ensures same { result ≢ ok
        → memory_behind handle.new.state.value ≡ memory_behind handle.old.state.value }
    ensures refused { result ≢ ok → (numbers.new ≡ numbers.old)
        × IsUnwritten handle.old.state.value (length numbers.old) result }
{
    let Some(mut state) = handle.take_out(heap) else {
        return CLOSED;
    };
    let status = state.leave_image(heap, numbers);
    if status != OK {
        *handle = PlainHandle::of(state);
    }
    status
}

/// Frees what the handle stands for, and closes it.
#[unsafe(no_mangle)]
pub extern "C" fn llfree_plain_close(handle: &mut PlainHandle, heap: Global)
    ensures { handle.new.live ≡ false }
{
    let _state = handle.take_out(heap);
}
