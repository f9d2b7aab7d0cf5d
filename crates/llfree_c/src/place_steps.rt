//! The calls on a core, of just one block.

ghost use Rattle.std.specs.Prelude.{◌≡◌, ◌≢◌, ◌⊎◌, ◌≤◌, false};
ghost use Rattle.llfree_c.specs.Places.{TakesHeldAt, RefusesTakeAtAs, RefusesBlockAtAs};
ghost use Rattle.llfree_c.specs.Status.{ok, bad_order, not_closed, contended};
ghost use Rattle.zone_slots.specs.FrameCalls.{LeavesRest};
ghost use Rattle.zone_slots.specs.Places.{TakesPlaceFor};

use crate::block_handle::BlockHandle;
use crate::block_steps::carried;
use crate::statuses::{BAD_ORDER, CONTENDED, NO_BLOCK, NOT_CLOSED, OK};
use frame_words::TakeFault;
use zone_slots::CoreState;

pub(crate) fn take_at(state: &mut CoreState, frame: u32, order: u8) -> u32
    ensures rest { LeavesRest state.old state.new }
    ensures taken { result ≡ ok → TakesPlaceFor order frame state.old state.new }
    ensures refused { result ≢ ok → RefusesTakeAtAs order frame result state.old state.new }
    ensures known { (result ≤ bad_order) ⊎ (result ≡ contended) }
{
    match state.take_at(frame, order) {
        Ok(()) => OK,
        Err(TakeFault::BadOrder) => BAD_ORDER,
        Err(TakeFault::NoBlock) => NO_BLOCK,
        Err(TakeFault::Contended) => CONTENDED,
    }
}

pub(crate) fn take_block_at(
    state: &mut CoreState,
    frame: u32,
    order: u8,
    held: &mut BlockHandle,
) -> u32
    ensures rest { LeavesRest state.old state.new }
    ensures empty { result ≡ ok → held.old.live ≡ false }
    ensures taken { result ≡ ok → TakesHeldAt order frame held.new state.old state.new }
    ensures refused { result ≢ ok
        → RefusesBlockAtAs order frame held.old result state.old state.new }
    ensures stays { result ≢ ok → held.new ≡ held.old }
    ensures known { (result ≤ bad_order) ⊎ (result ≡ not_closed) ⊎ (result ≡ contended) }
{
    if held.live {
        return NOT_CLOSED;
    }
    match state.take_block_at(frame, order) {
        Ok(taken) => {
            *held = carried(state, taken);
            OK
        }
        Err(TakeFault::BadOrder) => BAD_ORDER,
        Err(TakeFault::NoBlock) => NO_BLOCK,
        Err(TakeFault::Contended) => CONTENDED,
    }
}
