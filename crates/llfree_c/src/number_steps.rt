//! The calls on a core, by numbers of single frames.

ghost use Rattle.std.specs.Prelude.{◌≡◌, ◌≢◌, ◌⊎◌, ◌≤◌};
ghost use Rattle.llfree_c.specs.FrameNumbers.{RefusesNumberAs};
ghost use Rattle.llfree_c.specs.Status.{ok, no_block, not_held, contended};
ghost use Rattle.zone_slots.specs.Calls.{SharesOne};
ghost use Rattle.zone_slots.specs.FrameNumbers.{TakesNumber, GivesNumber, GivesNone};

use crate::statuses::{BAD_ORDER, CONTENDED, NO_BLOCK, NOT_HELD, OK};
use frame_words::TakeFault;
use zone_slots::CoreState;

#[inline(always)]
pub(crate) fn take_number(state: &mut CoreState, frame: &mut u32) -> u32
    ensures shared { SharesOne state.old state.new }
    ensures taken { result ≡ ok → TakesNumber frame.new state.old state.new }
    ensures refused { result ≢ ok → RefusesNumberAs result state.old state.new }
    ensures stays { result ≢ ok → frame.new ≡ frame.old }
    ensures known { (result ≤ no_block) ⊎ (result ≡ contended) }
{
    match state.take_number() {
        Ok(number) => {
            *frame = number;
            OK
        }
        Err(TakeFault::BadOrder) => BAD_ORDER,
        Err(TakeFault::NoBlock) => NO_BLOCK,
        Err(TakeFault::Contended) => CONTENDED,
    }
}

#[inline(always)]
pub(crate) fn give_number(state: &mut CoreState, frame: u32) -> u32
    ensures shared { SharesOne state.old state.new }
    ensures given { result ≡ ok → GivesNumber frame state.old state.new }
    ensures same { result ≡ not_held → GivesNone state.old state.new }
    ensures known { (result ≡ ok) ⊎ (result ≡ not_held) }
{
    match state.give_number(frame) {
        Ok(()) => OK,
        Err(_) => NOT_HELD,
    }
}
