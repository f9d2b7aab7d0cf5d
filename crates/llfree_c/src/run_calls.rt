//! What C calls of runs: huge frames that lie side by side; and looks at blocks.

ghost use Rattle.std.specs.Prelude.{◌≡◌, ◌≢◌, ◌⊎◌, ◌≤◌, true, false};
ghost use Rattle.zone_slots.specs.FrameCalls.{LeavesRest};
ghost use Rattle.zone_slots.specs.Runs.{LooksFor, TakesRunFor, GivesRunFor};
ghost use Rattle.llfree_c.specs.Runs.{RefusesRunAs, RefusesGiveRunAs};
ghost use Rattle.llfree_c.specs.SeenCores.{OnCores};
ghost use Rattle.llfree_c.specs.Status.{ok, bad_order, not_held, closed, contended};

use crate::core_handle::CoreHandle;
use crate::run_steps::{give_run, take_run};
use crate::statuses::CLOSED;

/// Whether all frames of this block are free, as one look sees it; false where nothing is behind the handle.
#[unsafe(no_mangle)]
pub extern "C" fn llfree_is_free(handle: &mut CoreHandle, frame: u32, order: u8) -> bool
    ensures looks { handle.old.live ≡ true
        → OnCores (LooksFor order frame result) handle.old.state.value handle.new.state.value }
    ensures rest { handle.old.live ≡ true
        → OnCores LeavesRest handle.old.state.value handle.new.state.value }
    ensures closed { handle.old.live ≡ false → (result ≡ false) × (handle.new ≡ handle.old) }
{
    if !handle.live {
        return false;
    }
    handle.state.as_mut().is_free(frame, order)
}

/// Takes so many huge frames that lie side by side in one zone, and writes the first frame of the first one.
#[unsafe(no_mangle)]
pub extern "C" fn llfree_take_run(handle: &mut CoreHandle, count: u32, frame: &mut u32) -> u32
    ensures taken { result ≡ ok
        → OnCores (TakesRunFor count frame.new) handle.old.state.value handle.new.state.value }
    ensures refused { result ≢ ok → result ≢ closed
        → OnCores (RefusesRunAs count result) handle.old.state.value handle.new.state.value }
    ensures rest { result ≢ closed
        → OnCores LeavesRest handle.old.state.value handle.new.state.value }
    ensures closed { result ≡ closed → (handle.old.live ≡ false) × (handle.new ≡ handle.old) }
    ensures stays { result ≢ ok → frame.new ≡ frame.old }
    ensures known { (result ≤ bad_order) ⊎ (result ≡ closed) ⊎ (result ≡ contended) }
{
    if !handle.live {
        return CLOSED;
    }
    take_run(handle.state.as_mut(), count, frame)
}

/// Gives so many huge frames that lie side by side in one zone from this frame on, where each is held.
#[unsafe(no_mangle)]
pub extern "C" fn llfree_give_run(handle: &mut CoreHandle, frame: u32, count: u32) -> u32
    ensures given { result ≡ ok
        → OnCores (GivesRunFor count frame) handle.old.state.value handle.new.state.value }
    ensures refused { result ≢ ok → result ≢ closed
        → OnCores (RefusesGiveRunAs count frame result) handle.old.state.value handle.new.state.value }
    ensures rest { result ≢ closed
        → OnCores LeavesRest handle.old.state.value handle.new.state.value }
    ensures closed { result ≡ closed → (handle.old.live ≡ false) × (handle.new ≡ handle.old) }
    ensures known { (result ≡ ok) ⊎ (result ≡ bad_order) ⊎ (result ≡ not_held) ⊎ (result ≡ closed) }
{
    if !handle.live {
        return CLOSED;
    }
    give_run(handle.state.as_mut(), frame, count)
}
