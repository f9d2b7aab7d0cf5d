//! What C calls of blocks where they lie.

ghost use Rattle.std.specs.Prelude.{◌≡◌, ◌≢◌, ◌⊎◌, ◌≤◌, false};
ghost use Rattle.zone_slots.specs.Calls.{SplitsToFor, SeesFor, KeepsCore};
ghost use Rattle.zone_slots.specs.FrameCalls.{LeavesRest};
ghost use Rattle.zone_slots.specs.Places.{TakesPlaceFor};
ghost use Rattle.llfree_c.specs.Places.{TakesHeldAt, RefusesTakeAtAs, RefusesBlockAtAs};
ghost use Rattle.llfree_c.specs.RefusedCalls.{RefusesSplitToAs};
ghost use Rattle.llfree_c.specs.Status.{ok, bad_order, not_held, closed, not_closed, contended};
ghost use Rattle.llfree_c.specs.SeenCores.{OnCores};

use crate::block_handle::BlockHandle;
use crate::core_handle::CoreHandle;
use crate::core_steps::{order_at, split_to};
use crate::crossings::may_cross;
use crate::place_steps::{take_at, take_block_at};
use crate::statuses::CLOSED;

/// Takes exactly this block, where all of its frames are free.
#[unsafe(no_mangle)]
pub extern "C" fn llfree_take_at(handle: &mut CoreHandle, frame: u32, order: u8) -> u32
    ensures taken { result ≡ ok
        → OnCores (TakesPlaceFor order frame) handle.old.state.value handle.new.state.value }
    ensures refused { result ≢ ok → result ≢ closed
        → OnCores (RefusesTakeAtAs order frame result) handle.old.state.value handle.new.state.value }
    ensures rest { result ≢ closed
        → OnCores LeavesRest handle.old.state.value handle.new.state.value }
    ensures closed { result ≡ closed → (handle.old.live ≡ false) × (handle.new ≡ handle.old) }
    ensures known { (result ≤ bad_order) ⊎ (result ≡ closed) ⊎ (result ≡ contended) }
{
    if !handle.live {
        return CLOSED;
    }
    take_at(handle.state.as_mut(), frame, order)
}

/// Takes exactly this block, where all of its frames are free; the empty `held` carries it from then on.
#[unsafe(no_mangle)]
pub extern "C" fn llfree_take_block_at(
    handle: &mut CoreHandle,
    frame: u32,
    order: u8,
    held: &mut BlockHandle,
) -> u32
    ensures taken { result ≡ ok → (held.old.live ≡ false) × OnCores
        (TakesHeldAt order frame held.new) handle.old.state.value handle.new.state.value }
    ensures refused { result ≢ ok → result ≢ closed → OnCores
        (RefusesBlockAtAs order frame held.old result) handle.old.state.value handle.new.state.value }
    ensures rest { result ≢ closed
        → OnCores LeavesRest handle.old.state.value handle.new.state.value }
    ensures closed { result ≡ closed → (handle.old.live ≡ false) × (handle.new ≡ handle.old) }
    ensures stays { result ≢ ok → held.new ≡ held.old }
    ensures known { (result ≤ bad_order) ⊎ (result ≡ closed) ⊎ (result ≡ not_closed)
        ⊎ (result ≡ contended) }
{
    if !handle.live {
        return CLOSED;
    }
    let status = take_block_at(handle.state.as_mut(), frame, order, held);
    may_cross(held);
    status
}

/// Splits exactly this block into all its blocks of an order, where it is held; any core gives each by itself
/// then.
#[unsafe(no_mangle)]
pub extern "C" fn llfree_split_to(handle: &mut CoreHandle, frame: u32, order: u8, to: u8) -> u32
    ensures split { result ≡ ok
        → OnCores (SplitsToFor order to frame) handle.old.state.value handle.new.state.value }
    ensures refused { result ≢ ok → result ≢ closed
        → OnCores (RefusesSplitToAs order to frame result) handle.old.state.value handle.new.state.value }
    ensures rest { result ≢ closed
        → OnCores LeavesRest handle.old.state.value handle.new.state.value }
    ensures closed { result ≡ closed → (handle.old.live ≡ false) × (handle.new ≡ handle.old) }
    ensures known { (result ≡ ok) ⊎ (result ≡ bad_order) ⊎ (result ≡ not_held)
        ⊎ (result ≡ closed) ⊎ (result ≡ contended) }
{
    if !handle.live {
        return CLOSED;
    }
    split_to(handle.state.as_mut(), frame, order, to)
}

/// Writes the order of the block that begins at this frame, as a look at the slots of the blocks that begin there sees
/// it.
#[unsafe(no_mangle)]
pub extern "C" fn llfree_order_at(handle: &mut CoreHandle, frame: u32, order: &mut u8) -> u32
    ensures seen { result ≡ ok
        → OnCores (SeesFor order.new frame) handle.old.state.value handle.new.state.value }
    ensures same { result ≢ closed
        → OnCores KeepsCore handle.old.state.value handle.new.state.value }
    ensures rest { result ≢ closed
        → OnCores LeavesRest handle.old.state.value handle.new.state.value }
    ensures closed { result ≡ closed → (handle.old.live ≡ false) × (handle.new ≡ handle.old) }
    ensures stays { result ≢ ok → order.new ≡ order.old }
    ensures known { (result ≡ ok) ⊎ (result ≡ not_held) ⊎ (result ≡ closed) }
{
    if !handle.live {
        return CLOSED;
    }
    order_at(handle.state.as_mut(), frame, order)
}
