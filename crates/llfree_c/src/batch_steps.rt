//! The calls on a core, by several single frames that are carried.

ghost use Rattle.std.specs.Prelude.{◌≡◌, ◌≢◌, ◌⊎◌, ◌<◌, MatchBool, IfOk, IfErr, length};
ghost use Rattle.std.specs.List.{All};
ghost use Rattle.llfree_c.specs.Batches.{CarriesNothing, CarriesOne, CarriesNoLarger, CarriesSingle};
ghost use Rattle.llfree_c.specs.Batches.{TakesFrames, RefusesFramesAs, GivesFrames, KeepsFramesAs};
ghost use Rattle.llfree_c.specs.Blocks.{IsEmptyOrOut};
ghost use Rattle.llfree_c.specs.Status.{ok, no_block, bad_order, not_held, not_closed, contended};
ghost use Rattle.zone_slots.specs.Calls.{SharesOne};

use crate::block_handle::BlockHandle;
use crate::frame_steps::{give_frame, take_frame};
use crate::statuses::{BAD_ORDER, NOT_CLOSED, NOT_HELD, OK};
use zone_slots::CoreState;

pub(crate) fn take_frames(state: &mut CoreState, held: &mut [BlockHandle], got: &mut usize) -> u32
    ensures shared { SharesOne state.old state.new }
    ensures taken { result ≡ ok → All CarriesNothing held.old
        × TakesFrames got.new held.old held.new state.old state.new }
    ensures some { result ≡ ok → 0 < length held.old → 0 < got.new }
    ensures refused { result ≢ ok → RefusesFramesAs held.old result state.old state.new }
    ensures stay { result ≢ ok → (held.new ≡ held.old) × (got.new ≡ got.old) }
    ensures known { (result ≡ ok) ⊎ (result ≡ no_block) ⊎ (result ≡ not_closed) ⊎ (result ≡ contended) }
{
    if !are_empty(held) {
        return NOT_CLOSED;
    }
    let (count, status) = take_each(state, held);
    if count == 0 && status != OK {
        return status;
    }
    *got = count;
    OK
}

fn are_empty(held: &[BlockHandle]) -> bool
    ensures { MatchBool result (All CarriesNothing held.now) (¬ All CarriesNothing held.now) }
{
    for block in held {
        if block.live {
            return false;
        }
    }
    true
}

// How many structs were filled, the first ones, and what the last take answered.
fn take_each(state: &mut CoreState, held: &mut [BlockHandle]) -> (usize, u32)
    requires { All CarriesNothing held.old }
    ensures shared { SharesOne state.old state.new }
    ensures taken { TakesFrames result.0 held.old held.new state.old state.new }
    ensures some { result.1 ≡ ok → result.0 ≡ length held.old }
    ensures refused { result.0 ≡ 0 → result.1 ≢ ok → RefusesFramesAs held.old result.1 state.old state.new }
    ensures stay { result.0 ≡ 0 → held.new ≡ held.old }
    ensures known { (result.1 ≡ ok) ⊎ (result.1 ≡ no_block) ⊎ (result.1 ≡ contended) }
{
    let mut count = 0;
    for block in held {
        let status = take_frame(state, block);
        if status != OK {
            return (count, status);
        }
        count += 1;
    }
    (count, OK)
}

pub(crate) fn give_frames(state: &mut CoreState, held: &mut [BlockHandle]) -> u32
    requires { All (IsEmptyOrOut state.old) held.old }
    ensures shared { SharesOne state.old state.new }
    ensures given { result ≡ ok → GivesFrames held.old held.new state.old state.new }
    ensures refused { result ≢ ok → KeepsFramesAs held.old result state.old state.new }
    ensures stay { result ≢ ok → held.new ≡ held.old }
    ensures known { (result ≡ ok) ⊎ (result ≡ bad_order) ⊎ (result ≡ not_held) }
{
    match are_single(held) {
        Ok(()) => {
            give_each(state, held);
            OK
        }
        Err(status) => status,
    }
}

fn are_single(held: &[BlockHandle]) -> Result<(), u32>
    ensures single { IfOk result (λ _. All CarriesSingle held.now) }
    ensures err { IfErr result (λ e. ((e ≡ not_held) × ¬ All CarriesOne held.now)
        ⊎ ((e ≡ bad_order) × ¬ All CarriesNoLarger held.now)) }
{
    for block in held {
        if !block.live {
            return Err(NOT_HELD);
        }
        if block.order > 0 {
            return Err(BAD_ORDER);
        }
    }
    Ok(())
}

fn give_each(state: &mut CoreState, held: &mut [BlockHandle])
    requires out { All (IsEmptyOrOut state.old) held.old }
    requires singles { All CarriesSingle held.old }
    ensures shared { SharesOne state.old state.new }
    ensures given { GivesFrames held.old held.new state.old state.new }
{
    for block in held {
        let _given = give_frame(state, block);
    }
}
