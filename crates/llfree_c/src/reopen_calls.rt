//! What C calls to open a memory that was in use before.

ghost use Rattle.std.specs.Prelude.{◌≡◌, ◌≢◌, ◌⊎◌, true, false};
ghost use Rattle.std.specs.List.{All};
ghost use Rattle.llfree_c.specs.OpenCores.{IsClosedHandle};
ghost use Rattle.llfree_c.specs.Reopenings.{IsNotReopened, ReopensBehind};
ghost use Rattle.llfree_c.specs.Status.{ok, not_closed};
ghost use Rattle.llfree_c.specs.ZoneReopenings.{HasNoCoresAt, ReopensCores};

use crate::blocks::ClaimedBlock;
use crate::core_handle::CoreHandle;
use crate::core_openings::hand_over;
use crate::crossings::may_cross;
use crate::handle::PlainHandle;
use crate::plain::Plain;
use crate::reopened::reopened_cores;
use crate::statuses::{NO_MEMORY, NOT_CLOSED, OK};
use std::alloc::Global;

/// Opens an allocator behind a closed handle at the numbers of an image of so many frames. The claimed
/// blocks are out, as if they had been taken; what the image holds besides is held for good; all else
/// is free. The image's counters are not read.
#[unsafe(no_mangle)]
pub extern "C" fn llfree_plain_reopen(
    handle: &mut PlainHandle,
    heap: Global,
    frames: u32,
    numbers: &[u64],
    claims: &[ClaimedBlock],
) -> u32
    ensures open { result ≡ ok → (handle.old.live ≡ false)
        × ReopensBehind frames numbers.now claims.now handle.new.state.value }
    ensures refused { result ≢ ok → handle.new ≡ handle.old }
    ensures why { result ≢ ok → ((result ≡ not_closed) × (handle.old.live ≡ true))
        ⊎ IsNotReopened frames 1 numbers.now claims.now result }
{
    if handle.live {
        return NOT_CLOSED;
    }
    let plain = match Plain::reopen(heap, frames, numbers, claims) {
        Ok(plain) => plain,
        Err(status) => return status,
    };
    let Ok(state) = Box::new(heap, plain) else {
        return NO_MEMORY;
    };
    *handle = PlainHandle::of(state);
    may_cross(handle);
    OK
}

/// The same of the zones of so many frames without a hole, with a core behind each of these closed
/// handles. Any core gives the claimed blocks.
#[unsafe(no_mangle)]
pub extern "C" fn llfree_reopen(
    handles: &mut [CoreHandle],
    heap: Global,
    frames: u32,
    numbers: &[u64],
    claims: &[ClaimedBlock],
) -> u32
    ensures open { result ≡ ok → All IsClosedHandle handles.old
        × ReopensCores frames numbers.now claims.now handles.new }
    ensures refused { result ≢ ok → handles.new ≡ handles.old }
    ensures why { result ≢ ok → HasNoCoresAt frames numbers.now claims.now handles.old result }
{
    match reopened_cores(handles, heap, frames, numbers, claims) {
        Ok(cores) => {
            hand_over(handles, cores);
            OK
        }
        Err(status) => status,
    }
}
