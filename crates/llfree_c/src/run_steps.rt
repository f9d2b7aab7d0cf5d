//! The calls on a core, of runs.

ghost use Rattle.std.specs.Prelude.{◌≡◌, ◌≢◌, ◌⊎◌, ◌≤◌};
ghost use Rattle.llfree_c.specs.Runs.{RefusesRunAs, RefusesGiveRunAs};
ghost use Rattle.llfree_c.specs.Status.{ok, bad_order, not_held, contended};
ghost use Rattle.zone_slots.specs.FrameCalls.{LeavesRest};
ghost use Rattle.zone_slots.specs.Runs.{TakesRunFor, GivesRunFor};

use crate::statuses::{BAD_ORDER, CONTENDED, NO_BLOCK, NOT_HELD, OK};
use frame_words::TakeFault;
use zone_slots::{CoreState, Refusal};

pub(crate) fn take_run(state: &mut CoreState, count: u32, frame: &mut u32) -> u32
    ensures rest { LeavesRest state.old state.new }
    ensures taken { result ≡ ok → TakesRunFor count frame.new state.old state.new }
    ensures refused { result ≢ ok → RefusesRunAs count result state.old state.new }
    ensures stays { result ≢ ok → frame.new ≡ frame.old }
    ensures known { (result ≤ bad_order) ⊎ (result ≡ contended) }
{
    match state.take_run(count) {
        Ok(first) => {
            *frame = first;
            OK
        }
        Err(TakeFault::BadOrder) => BAD_ORDER,
        Err(TakeFault::NoBlock) => NO_BLOCK,
        Err(TakeFault::Contended) => CONTENDED,
    }
}

pub(crate) fn give_run(state: &mut CoreState, frame: u32, count: u32) -> u32
    ensures rest { LeavesRest state.old state.new }
    ensures given { result ≡ ok → GivesRunFor count frame state.old state.new }
    ensures refused { result ≢ ok → RefusesGiveRunAs count frame result state.old state.new }
    ensures known { (result ≡ ok) ⊎ (result ≡ bad_order) ⊎ (result ≡ not_held) }
{
    match state.give_run(frame, count) {
        Ok(()) => OK,
        Err(Refusal::NoParts) => BAD_ORDER,
        Err(Refusal::NotHeld) => NOT_HELD,
        Err(Refusal::NoSlot) => unreachable!(),
    }
}
