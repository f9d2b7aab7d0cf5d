//! The calls on a core, by blocks that are carried.

ghost use Rattle.std.specs.Prelude.{◌≡◌, ◌≢◌, ◌⊎◌, ◌≤◌, true, false};
ghost use Rattle.llfree_c.specs.RefusedCalls.{RefusesBlockAs, RefusesHalvesAs};
ghost use Rattle.llfree_c.specs.Status.{ok, bad_order, not_held, not_closed, contended};
ghost use Rattle.llfree_c.specs.Blocks.{IsEmptyOrOut, IsCarriedFor, TakesHeld, SplitsHeld};
ghost use Rattle.zone_slots.specs.Blocks.{IsOutFor};
ghost use Rattle.zone_slots.specs.Calls.{GivesFor, KeepsCore};
ghost use Rattle.zone_slots.specs.FrameCalls.{LeavesRest};

use crate::block_handle::BlockHandle;
use crate::statuses::{BAD_ORDER, CONTENDED, NO_BLOCK, NOT_CLOSED, NOT_HELD, OK};
use frame_words::TakeFault;
use frame_zones::ZoneBlock;
use zone_slots::CoreState;

pub(crate) fn take_block(state: &mut CoreState, order: u8, held: &mut BlockHandle) -> u32
    ensures rest { LeavesRest state.old state.new }
    ensures taken { result ≡ ok → (held.old.live ≡ false)
        × TakesHeld order held.new state.old state.new }
    ensures refused { result ≢ ok → RefusesBlockAs order held.old result state.old state.new }
    ensures stays { result ≢ ok → held.new ≡ held.old }
    ensures known { (result ≤ bad_order) ⊎ (result ≡ not_closed) ⊎ (result ≡ contended) }
{
    if held.live {
        return NOT_CLOSED;
    }
    match state.take_block(order) {
        Ok(taken) => {
            *held = carried(state, taken);
            OK
        }
        Err(TakeFault::BadOrder) => BAD_ORDER,
        Err(TakeFault::NoBlock) => NO_BLOCK,
        Err(TakeFault::Contended) => CONTENDED,
    }
}

pub(crate) fn give_block(state: &mut CoreState, held: &mut BlockHandle) -> u32
    requires { IsEmptyOrOut state.old held.old }
    ensures rest { LeavesRest state.old state.new }
    ensures given { result ≡ ok → (held.old.live ≡ true)
        × GivesFor held.old.order held.old.frame state.old state.new }
    ensures empty { held.new.live ≡ false }
    ensures same { result ≡ not_held → KeepsCore state.old state.new }
    ensures stays { result ≡ not_held → held.new ≡ held.old }
    ensures known { (result ≡ ok) ⊎ (result ≡ not_held) }
{
    let Some((frame, order, seat)) = held.take_out() else {
        return NOT_HELD;
    };
    let block = state.block_of(frame, order, seat);
    state.give_block(block);
    OK
}

pub(crate) fn split_block(
    state: &mut CoreState,
    held: &mut BlockHandle,
    upper: &mut BlockHandle,
) -> u32
    requires { IsEmptyOrOut state.old held.old }
    ensures rest { LeavesRest state.old state.new }
    ensures split { result ≡ ok → (held.old.live ≡ true) × (upper.old.live ≡ false)
        × SplitsHeld held.old held.new upper.new state.old state.new }
    ensures refused { result ≢ ok
        → RefusesHalvesAs held.old upper.old result state.old state.new }
    ensures stay { result ≢ ok → (held.new ≡ held.old) × (upper.new ≡ upper.old) }
    ensures known { (result ≡ ok) ⊎ (result ≡ bad_order) ⊎ (result ≡ not_held)
        ⊎ (result ≡ not_closed) }
{
    if !held.live {
        return NOT_HELD;
    }
    if upper.live {
        return NOT_CLOSED;
    }
    if held.order == 0 {
        return BAD_ORDER;
    }
    let Some((frame, order, seat)) = held.take_out() else {
        return NOT_HELD;
    };
    let block = state.block_of(frame, order, seat);
    match state.split_block(block) {
        Ok((lower, other)) => {
            *held = carried(state, lower);
            *upper = carried(state, other);
            OK
        }
        Err(whole) => {
            *held = carried(state, whole);
            BAD_ORDER
        }
    }
}

// The struct that carries the block, by its number over all zones.
#[tactic(auto, using(crate::proofs::CarriedBlocks::carried_out))]
pub(crate) fn carried(state: &CoreState, held: ZoneBlock) -> BlockHandle
    requires { IsOutFor state.now held }
    ensures { IsCarriedFor state.now held result }
{
    let frame = state.frame_of(&held);
    let ZoneBlock { zone: _, block } = held;
    BlockHandle::of(frame, block)
}
