//! What C calls of an allocator for several threads by numbers of single frames, of which some rest with a core.

ghost use Rattle.std.specs.Prelude.{◌≡◌, ◌≢◌, ◌⊎◌, ◌≤◌, false};
ghost use Rattle.zone_slots.specs.Calls.{SharesOne};
ghost use Rattle.zone_slots.specs.FrameNumbers.{TakesNumber, GivesNumber, GivesNone};
ghost use Rattle.llfree_c.specs.FrameNumbers.{RefusesNumberAs};
ghost use Rattle.llfree_c.specs.Status.{ok, no_block, not_held, closed, contended};
ghost use Rattle.llfree_c.specs.SeenCores.{OnCores};

use crate::core_handle::CoreHandle;
use crate::number_steps::{give_number, take_number};
use crate::statuses::CLOSED;

/// Takes a single frame as `llfree_take_frame` does, and writes its number.
#[unsafe(no_mangle)]
pub extern "C" fn llfree_take_number(handle: &mut CoreHandle, frame: &mut u32) -> u32
    ensures taken { result ≡ ok
        → OnCores (TakesNumber frame.new) handle.old.state.value handle.new.state.value }
    ensures refused { result ≢ ok → result ≢ closed
        → OnCores (RefusesNumberAs result) handle.old.state.value handle.new.state.value }
    ensures shared { result ≢ closed
        → OnCores SharesOne handle.old.state.value handle.new.state.value }
    ensures closed { result ≡ closed → (handle.old.live ≡ false) × (handle.new ≡ handle.old) }
    ensures stays { result ≢ ok → frame.new ≡ frame.old }
    ensures known { (result ≤ no_block) ⊎ (result ≡ closed) ⊎ (result ≡ contended) }
{
    if !handle.live {
        return CLOSED;
    }
    take_number(handle.state.as_mut(), frame)
}

/// Gives exactly this single frame, where it is held, whichever core took it. It comes to rest with the core.
#[unsafe(no_mangle)]
pub extern "C" fn llfree_give_number(handle: &mut CoreHandle, frame: u32) -> u32
    ensures given { result ≡ ok
        → OnCores (GivesNumber frame) handle.old.state.value handle.new.state.value }
    ensures same { result ≡ not_held
        → OnCores GivesNone handle.old.state.value handle.new.state.value }
    ensures shared { result ≢ closed
        → OnCores SharesOne handle.old.state.value handle.new.state.value }
    ensures closed { result ≡ closed → (handle.old.live ≡ false) × (handle.new ≡ handle.old) }
    ensures known { (result ≡ ok) ⊎ (result ≡ not_held) ⊎ (result ≡ closed) }
{
    if !handle.live {
        return CLOSED;
    }
    give_number(handle.state.as_mut(), frame)
}
