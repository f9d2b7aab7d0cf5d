//! The calls on a core, by numbers.

ghost use Rattle.std.specs.Prelude.{◌≡◌, ◌≢◌, ◌⊎◌, ◌≤◌};
ghost use Rattle.llfree_c.specs.RefusedCalls.{RefusesTakeAs, RefusesSplitAs, RefusesSplitToAs};
ghost use Rattle.llfree_c.specs.Status.{ok, bad_order, not_held, contended};
ghost use Rattle.zone_slots.specs.Calls.{TakesFor, GivesFor, SplitsFor, SplitsToFor, SeesFor, KeepsCore};
ghost use Rattle.zone_slots.specs.FrameCalls.{LeavesRest};

use crate::statuses::{BAD_ORDER, CONTENDED, NO_BLOCK, NOT_HELD, OK};
use frame_words::TakeFault;
use zone_slots::{CoreState, Refusal};

pub(crate) fn take(state: &mut CoreState, order: u8, frame: &mut u32) -> u32
    ensures rest { LeavesRest state.old state.new }
    ensures taken { result ≡ ok → TakesFor order frame.new state.old state.new }
    ensures refused { result ≢ ok → RefusesTakeAs order result state.old state.new }
    ensures stays { result ≢ ok → frame.new ≡ frame.old }
    ensures known { (result ≤ bad_order) ⊎ (result ≡ contended) }
{
    match state.take(order) {
        Ok(first) => {
            *frame = first;
            OK
        }
        Err(TakeFault::BadOrder) => BAD_ORDER,
        Err(TakeFault::NoBlock) => NO_BLOCK,
        Err(TakeFault::Contended) => CONTENDED,
    }
}

pub(crate) fn give(state: &mut CoreState, frame: u32, order: u8) -> u32
    ensures rest { LeavesRest state.old state.new }
    ensures given { result ≡ ok → GivesFor order frame state.old state.new }
    ensures same { result ≡ not_held → KeepsCore state.old state.new }
    ensures known { (result ≡ ok) ⊎ (result ≡ not_held) }
{
    match state.give(frame, order) {
        Ok(()) => OK,
        Err(_) => NOT_HELD,
    }
}

pub(crate) fn split(state: &mut CoreState, frame: u32, order: u8) -> u32
    ensures rest { LeavesRest state.old state.new }
    ensures split { result ≡ ok → SplitsFor order frame state.old state.new }
    ensures refused { result ≢ ok → RefusesSplitAs order frame result state.old state.new }
    ensures known { (result ≡ ok) ⊎ (result ≡ bad_order) ⊎ (result ≡ not_held)
        ⊎ (result ≡ contended) }
{
    match state.split(frame, order) {
        Ok(()) => OK,
        Err(Refusal::NoParts) => BAD_ORDER,
        Err(Refusal::NotHeld) => NOT_HELD,
        Err(Refusal::NoSlot) => CONTENDED,
    }
}

pub(crate) fn order_at(state: &mut CoreState, frame: u32, order: &mut u8) -> u32
    ensures rest { LeavesRest state.old state.new }
    ensures seen { result ≡ ok → SeesFor order.new frame state.old state.new }
    ensures same { KeepsCore state.old state.new }
    ensures stays { result ≢ ok → order.new ≡ order.old }
    ensures known { (result ≡ ok) ⊎ (result ≡ not_held) }
{
    let Some(seen) = state.order_at(frame) else {
        return NOT_HELD;
    };
    *order = seen;
    OK
}

pub(crate) fn split_to(state: &mut CoreState, frame: u32, order: u8, to: u8) -> u32
    ensures rest { LeavesRest state.old state.new }
    ensures split { result ≡ ok → SplitsToFor order to frame state.old state.new }
    ensures refused { result ≢ ok → RefusesSplitToAs order to frame result state.old state.new }
    ensures known { (result ≡ ok) ⊎ (result ≡ bad_order) ⊎ (result ≡ not_held)
        ⊎ (result ≡ contended) }
{
    match state.split_to(frame, order, to) {
        Ok(()) => OK,
        Err(Refusal::NoParts) => BAD_ORDER,
        Err(Refusal::NotHeld) => NOT_HELD,
        Err(Refusal::NoSlot) => CONTENDED,
    }
}
