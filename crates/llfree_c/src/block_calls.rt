//! What C calls of an allocator for several threads by blocks that it carries itself.

ghost use Rattle.std.specs.Prelude.{◌≡◌, ◌≢◌, ◌⊎◌, ◌≤◌, true, false};
ghost use Rattle.zone_slots.specs.Calls.{GivesFor, KeepsCore};
ghost use Rattle.zone_slots.specs.FrameCalls.{LeavesRest};
ghost use Rattle.llfree_c.specs.Blocks.{IsOfTheAllocator, TakesHeld, SplitsHeld};
ghost use Rattle.llfree_c.specs.RefusedCalls.{RefusesBlockAs, RefusesHalvesAs};
ghost use Rattle.llfree_c.specs.Status.{ok, bad_order, not_held, closed, not_closed, contended};
ghost use Rattle.llfree_c.specs.SeenCores.{OnCores};

use crate::block_handle::BlockHandle;
use crate::block_steps::{give_block, split_block, take_block};
use crate::core_handle::CoreHandle;
use crate::crossings::may_cross;
use crate::statuses::CLOSED;

/// Takes a block of the order, which the empty `held` carries from then on.
#[unsafe(no_mangle)]
pub extern "C" fn llfree_take_block(
    handle: &mut CoreHandle,
    order: u8,
    held: &mut BlockHandle,
) -> u32
    ensures taken { result ≡ ok → (held.old.live ≡ false)
        × OnCores (TakesHeld order held.new) handle.old.state.value handle.new.state.value }
    ensures refused { result ≢ ok → result ≢ closed → OnCores
        (RefusesBlockAs order held.old result) handle.old.state.value handle.new.state.value }
    ensures rest { result ≢ closed
        → OnCores LeavesRest handle.old.state.value handle.new.state.value }
    ensures closed { result ≡ closed → (handle.old.live ≡ false) × (handle.new ≡ handle.old) }
    ensures stays { result ≢ ok → held.new ≡ held.old }
    ensures known { (result ≤ bad_order) ⊎ (result ≡ closed) ⊎ (result ≡ not_closed)
        ⊎ (result ≡ contended) }
{
    if !handle.live {
        return CLOSED;
    }
    let status = take_block(handle.state.as_mut(), order, held);
    may_cross(held);
    status
}

/// Gives the block that `held` carries, whichever core took it; it is empty from then on.
#[unsafe(no_mangle)]
pub extern "C" fn llfree_give_block(handle: &mut CoreHandle, held: &mut BlockHandle) -> u32
    requires { IsOfTheAllocator handle.old.state.value held.old }
    ensures given { result ≡ ok → (held.old.live ≡ true) × (held.new.live ≡ false)
        × OnCores (GivesFor held.old.order held.old.frame)
        handle.old.state.value handle.new.state.value }
    ensures same { result ≡ not_held → (held.old.live ≡ false)
        × OnCores KeepsCore handle.old.state.value handle.new.state.value }
    ensures rest { result ≢ closed
        → OnCores LeavesRest handle.old.state.value handle.new.state.value }
    ensures closed { result ≡ closed → (handle.old.live ≡ false) × (handle.new ≡ handle.old) }
    ensures stays { result ≢ ok → held.new ≡ held.old }
    ensures known { (result ≡ ok) ⊎ (result ≡ not_held) ⊎ (result ≡ closed) }
{
    if !handle.live {
        return CLOSED;
    }
    give_block(handle.state.as_mut(), held)
}

/// Splits the block that `held` carries into its halves, whichever core took it: `held` carries the
/// lower one from then on, and the empty `upper` the other.
#[unsafe(no_mangle)]
pub extern "C" fn llfree_split_block(
    handle: &mut CoreHandle,
    held: &mut BlockHandle,
    upper: &mut BlockHandle,
) -> u32
    requires { IsOfTheAllocator handle.old.state.value held.old }
    ensures split { result ≡ ok → (held.old.live ≡ true) × (upper.old.live ≡ false)
        × OnCores (SplitsHeld held.old held.new upper.new)
        handle.old.state.value handle.new.state.value }
    ensures refused { result ≢ ok → result ≢ closed → OnCores
        (RefusesHalvesAs held.old upper.old result) handle.old.state.value handle.new.state.value }
    ensures rest { result ≢ closed
        → OnCores LeavesRest handle.old.state.value handle.new.state.value }
    ensures closed { result ≡ closed → (handle.old.live ≡ false) × (handle.new ≡ handle.old) }
    ensures stay { result ≢ ok → (held.new ≡ held.old) × (upper.new ≡ upper.old) }
    ensures known { (result ≡ ok) ⊎ (result ≡ bad_order) ⊎ (result ≡ not_held) ⊎ (result ≡ closed)
        ⊎ (result ≡ not_closed) }
{
    if !handle.live {
        return CLOSED;
    }
    split_block(handle.state.as_mut(), held, upper)
}
