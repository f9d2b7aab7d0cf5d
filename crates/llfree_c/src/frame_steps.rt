//! The calls on a core, by single frames that are carried.

ghost use Rattle.std.specs.Prelude.{◌≡◌, ◌≢◌, ◌⊎◌, ◌≤◌, [], true, false};
ghost use Rattle.llfree_c.specs.Blocks.{IsEmptyOrOut};
ghost use Rattle.llfree_c.specs.Frames.{TakesFrame, GivesFrame, RefusesFrameAs, KeepsFrameAs};
ghost use Rattle.llfree_c.specs.Status.{ok, bad_order, not_held, not_closed, contended};
ghost use Rattle.zone_slots.specs.Calls.{SharesOne};
ghost use Rattle.zone_slots.specs.FrameCalls.{resting_in};

use crate::block_handle::BlockHandle;
use crate::statuses::{BAD_ORDER, CONTENDED, NO_BLOCK, NOT_CLOSED, NOT_HELD, OK};
use frame_words::TakeFault;
use std::alloc::Global;
use zone_slots::{CoreState, SingleFrame};

#[inline(always)]
pub(crate) fn take_frame(state: &mut CoreState, held: &mut BlockHandle) -> u32
    ensures shared { SharesOne state.old state.new }
    ensures taken { result ≡ ok → (held.old.live ≡ false) × TakesFrame held.new state.old state.new }
    ensures refused { result ≢ ok → RefusesFrameAs held.old result state.old state.new }
    ensures stays { result ≢ ok → held.new ≡ held.old }
    ensures known { (result ≤ bad_order) ⊎ (result ≡ not_closed) ⊎ (result ≡ contended) }
{
    if held.live {
        return NOT_CLOSED;
    }
    match state.take_frame() {
        Ok(frame) => {
            held.fill(frame);
            OK
        }
        Err(TakeFault::BadOrder) => BAD_ORDER,
        Err(TakeFault::NoBlock) => NO_BLOCK,
        Err(TakeFault::Contended) => CONTENDED,
    }
}

#[inline(always)]
pub(crate) fn give_frame(state: &mut CoreState, held: &mut BlockHandle) -> u32
    requires { IsEmptyOrOut state.old held.old }
    ensures shared { SharesOne state.old state.new }
    ensures given { result ≡ ok → (held.old.live ≡ true) × (held.old.order ≡ 0)
        × (held.new.live ≡ false) × GivesFrame held.old.frame state.old state.new }
    ensures refused { result ≢ ok → KeepsFrameAs held.old result state.old state.new }
    ensures stays { result ≢ ok → held.new ≡ held.old }
    ensures known { (result ≡ ok) ⊎ (result ≡ bad_order) ⊎ (result ≡ not_held) }
{
    if held.live && held.order > 0 {
        return BAD_ORDER;
    }
    let Some((frame, _order, seat)) = held.take_out() else {
        return NOT_HELD;
    };
    state.give_frame(SingleFrame { frame, seat });
    OK
}

/// A core ends: nothing rests with it.
pub(crate) fn end(state: Box<CoreState, Global>)
    requires { resting_in state.value ≡ [] }
{
    let _ended = state;
}
