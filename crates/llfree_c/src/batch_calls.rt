//! What C calls of an allocator for several threads by several single frames at once.

ghost use Rattle.std.specs.Prelude.{◌≡◌, ◌≢◌, ◌⊎◌, ◌<◌, false, length};
ghost use Rattle.std.specs.List.{All};
ghost use Rattle.zone_slots.specs.Calls.{SharesOne};
ghost use Rattle.llfree_c.specs.Batches.{CarriesNothing, TakesFrames, RefusesFramesAs};
ghost use Rattle.llfree_c.specs.Batches.{AreOfTheAllocator, GivesFrames, KeepsFramesAs};
ghost use Rattle.llfree_c.specs.Status.{ok, no_block, bad_order, not_held, closed, not_closed, contended};
ghost use Rattle.llfree_c.specs.SeenCores.{OnCores};

use crate::batch_steps::{give_frames, take_frames};
use crate::block_handle::BlockHandle;
use crate::core_handle::CoreHandle;
use crate::statuses::CLOSED;

/// Takes a single frame into each of these empty structs, while there are some, the first struct first: as many takes
/// of one frame do. It writes how many there were.
#[unsafe(no_mangle)]
pub extern "C" fn llfree_take_frames(
    handle: &mut CoreHandle,
    held: &mut [BlockHandle],
    got: &mut usize,
) -> u32
    ensures taken { result ≡ ok → All CarriesNothing held.old
        × OnCores (TakesFrames got.new held.old held.new)
        handle.old.state.value handle.new.state.value }
    ensures some { result ≡ ok → 0 < length held.old → 0 < got.new }
    ensures refused { result ≢ ok → result ≢ closed → OnCores
        (RefusesFramesAs held.old result) handle.old.state.value handle.new.state.value }
    ensures shared { result ≢ closed
        → OnCores SharesOne handle.old.state.value handle.new.state.value }
    ensures closed { result ≡ closed → (handle.old.live ≡ false) × (handle.new ≡ handle.old) }
    ensures stay { result ≢ ok → (held.new ≡ held.old) × (got.new ≡ got.old) }
    ensures known { (result ≡ ok) ⊎ (result ≡ no_block) ⊎ (result ≡ closed) ⊎ (result ≡ not_closed)
        ⊎ (result ≡ contended) }
{
    if !handle.live {
        return CLOSED;
    }
    take_frames(handle.state.as_mut(), held, got)
}

/// Gives the single frame of each of these structs, whichever core took it, the first struct first; they are empty
/// from then on. The frames come to rest with the core. Where one struct has none, or a larger block, nothing is given.
#[unsafe(no_mangle)]
pub extern "C" fn llfree_give_frames(handle: &mut CoreHandle, held: &mut [BlockHandle]) -> u32
    requires { AreOfTheAllocator handle.old.state.value held.old }
    ensures given { result ≡ ok → OnCores (GivesFrames held.old held.new)
        handle.old.state.value handle.new.state.value }
    ensures refused { result ≢ ok → result ≢ closed → OnCores
        (KeepsFramesAs held.old result) handle.old.state.value handle.new.state.value }
    ensures shared { result ≢ closed
        → OnCores SharesOne handle.old.state.value handle.new.state.value }
    ensures closed { result ≡ closed → (handle.old.live ≡ false) × (handle.new ≡ handle.old) }
    ensures stay { result ≢ ok → held.new ≡ held.old }
    ensures known { (result ≡ ok) ⊎ (result ≡ bad_order) ⊎ (result ≡ not_held) ⊎ (result ≡ closed) }
{
    if !handle.live {
        return CLOSED;
    }
    give_frames(handle.state.as_mut(), held)
}
