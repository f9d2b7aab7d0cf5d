//! What C calls of an allocator for several threads by single frames, of which some rest with a core.

ghost use Rattle.std.specs.Prelude.{◌≡◌, ◌≢◌, ◌⊎◌, ◌≤◌, true, false};
ghost use Rattle.zone_slots.specs.Calls.{SharesOne};
ghost use Rattle.llfree_c.specs.Blocks.{IsOfTheAllocator};
ghost use Rattle.llfree_c.specs.Frames.{TakesFrame, GivesFrame, RefusesFrameAs, KeepsFrameAs};
ghost use Rattle.llfree_c.specs.Frames.{Drains, resting_behind};
ghost use Rattle.llfree_c.specs.Status.{ok, bad_order, not_held, closed, not_closed, contended};
ghost use Rattle.llfree_c.specs.SeenCores.{OnCores};

use crate::block_handle::BlockHandle;
use crate::core_handle::CoreHandle;
use crate::crossings::may_cross;
use crate::frame_steps::{give_frame, take_frame};
use crate::statuses::CLOSED;

/// Takes a single frame, which the empty `held` carries from then on: the one that came to rest with the core
/// last, or one as a take of order 0 takes it.
#[unsafe(no_mangle)]
pub extern "C" fn llfree_take_frame(handle: &mut CoreHandle, held: &mut BlockHandle) -> u32
    ensures taken { result ≡ ok → (held.old.live ≡ false)
        × OnCores (TakesFrame held.new) handle.old.state.value handle.new.state.value }
    ensures refused { result ≢ ok → result ≢ closed → OnCores
        (RefusesFrameAs held.old result) handle.old.state.value handle.new.state.value }
    ensures shared { result ≢ closed
        → OnCores SharesOne handle.old.state.value handle.new.state.value }
    ensures closed { result ≡ closed → (handle.old.live ≡ false) × (handle.new ≡ handle.old) }
    ensures stays { result ≢ ok → held.new ≡ held.old }
    ensures known { (result ≤ bad_order) ⊎ (result ≡ closed) ⊎ (result ≡ not_closed)
        ⊎ (result ≡ contended) }
{
    if !handle.live {
        return CLOSED;
    }
    let status = take_frame(handle.state.as_mut(), held);
    may_cross(held);
    status
}

/// Gives the single frame that `held` carries, whichever core took it; it is empty from then on. The frame
/// comes to rest with the core.
#[unsafe(no_mangle)]
pub extern "C" fn llfree_give_frame(handle: &mut CoreHandle, held: &mut BlockHandle) -> u32
    requires { IsOfTheAllocator handle.old.state.value held.old }
    ensures given { result ≡ ok → (held.old.live ≡ true) × (held.old.order ≡ 0)
        × (held.new.live ≡ false)
        × OnCores (GivesFrame held.old.frame) handle.old.state.value handle.new.state.value }
    ensures refused { result ≢ ok → result ≢ closed → OnCores
        (KeepsFrameAs held.old result) handle.old.state.value handle.new.state.value }
    ensures shared { result ≢ closed
        → OnCores SharesOne handle.old.state.value handle.new.state.value }
    ensures closed { result ≡ closed → (handle.old.live ≡ false) × (handle.new ≡ handle.old) }
    ensures stays { result ≢ ok → held.new ≡ held.old }
    ensures known { (result ≡ ok) ⊎ (result ≡ bad_order) ⊎ (result ≡ not_held) ⊎ (result ≡ closed) }
{
    if !handle.live {
        return CLOSED;
    }
    give_frame(handle.state.as_mut(), held)
}

/// Gives all frames back that rest with the core. Where nothing is behind the handle it does nothing.
#[unsafe(no_mangle)]
pub extern "C" fn llfree_drain(handle: &mut CoreHandle)
    ensures drained { handle.old.live ≡ true
        → OnCores Drains handle.old.state.value handle.new.state.value }
    ensures closed { handle.old.live ≡ false → handle.new ≡ handle.old }
{
    if !handle.live {
        return;
    }
    handle.state.as_mut().drain();
}

/// How many frames rest with the core, at most 128; 0 where nothing is behind the handle.
#[unsafe(no_mangle)]
pub extern "C" fn llfree_resting(handle: &mut CoreHandle) -> u32
    ensures resting { result ≡ resting_behind handle.old.state.value }
    ensures same { handle.new.state.value ≡ handle.old.state.value }
{
    if !handle.live {
        return 0;
    }
    handle.state.as_mut().resting()
}
