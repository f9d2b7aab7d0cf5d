//! Takes of just one block, at its place.

ghost use Rattle.std.specs.Prelude.{◌≡◌, ◌+◌, ◌*◌, ◌≤◌};
ghost use Rattle.frame_words.specs.Runs.{word_order, pair_order, four_order, child_words};
ghost use Rattle.frame_model.specs.Key.{tree_of};
ghost use Rattle.frame_model.specs.Block.{block};
ghost use Rattle.low_frames.specs.Bounds.{
  attempt,
  most_to_claim_words,
  most_at_run,
  most_at_words,
  most_at_place,
};
ghost use Rattle.low_frames.specs.Takes.{HasClaimed, HasHandedOut};
ghost use Rattle.low_frames.specs.Alone.{IsClaimed};
ghost use Rattle.low_frames.specs.Groups.{HoldsMoreWords};
ghost use Rattle.low_frames.specs.Outcomes.{Takes};
ghost use Rattle.low_frames.specs.Parts.{Attempts};
ghost use Rattle.low_frames.specs.Places.{
  MayTakeAt,
  MayClaimAt,
  MayClaimWordsAt,
  HasClaimedWordsAt,
  IsNotClear,
  AreNotFree,
};

use super::attempts::{TRIES, try_charge};
use super::huge::take_huge;
use super::wide::claim_words;
use frame_core::{Moves, Place};
use frame_words::{CHILD_WORDS, HUGE_ORDER, WORD_FRAMES, WORD_ORDER, child_of, frames_of, mask};

/// Takes the block of `2^order` frames that begins at `frame`, where all of them are free. No other
/// block is looked for.
#[inline(always)]
pub fn take_at<M: Moves>(m: &mut M, frame: u32, order: u8) -> Option<M::Held>
    requires { MayTakeAt (block frame order) (M.at m.old) }
    ensures { Takes M.Held.block_of M.is_exact most_at_place (λ b. b ≡ block frame order)
        (HasHandedOut (tree_of frame) order) result (M.at m.old) (M.at m.new) }
{
    if order == HUGE_ORDER {
        take_huge(m, child_of(frame))
    } else if order > WORD_ORDER {
        take_words_at(m, frame, order)
    } else {
        take_run_at(m, frame, order)
    }
}

/// Takes the block, which lies in one bit word. The counter goes down before the bits go up.
#[inline(always)]
fn take_run_at<M: Moves>(m: &mut M, frame: u32, order: u8) -> Option<M::Held>
    requires may { MayTakeAt (block frame order) (M.at m.old) }
    requires small { order ≤ word_order }
    ensures { Takes M.Held.block_of M.is_exact most_at_run (λ b. b ≡ block frame order)
        (HasHandedOut (tree_of frame) order) result (M.at m.old) (M.at m.new) }
{
    let child = child_of(frame);
    let n = frames_of(order);
    if !try_charge(m, child, n) {
        return None;
    }
    if !try_claim_at(m, frame / WORD_FRAMES, frame % WORD_FRAMES, order) {
        m.refund(child, n);
        return None;
    }
    Some(m.hand_out(frame, order))
}

/// Claims the run of `2^order` bits of the word that begins at the bit, whose frames are charged and
/// paid; false where one of them is set, or all tries were lost.
#[inline(always)]
fn try_claim_at<M: Moves>(m: &mut M, word: u32, bit: u32, order: u8) -> bool
    requires { MayClaimAt word bit order (M.at m.old) }
    ensures { Attempts M.is_exact attempt (HasClaimed word bit order)
        (IsClaimed (M.at m.old).key word bit order)
        (IsNotClear (M.at m.old).key word bit order) result (M.at m.old) (M.at m.new) }
{
    let run = mask(order, bit);
    for _i in 0..TRIES {
        let seen = m.load(Place::Bits(word));
        if seen & run != 0 {
            return false;
        }
        if m.claim(word, seen, run) {
            return true;
        }
    }
    false
}

/// Takes the block, of two bit words or four. The counter goes down before the bits go up.
#[inline(always)]
fn take_words_at<M: Moves>(m: &mut M, frame: u32, order: u8) -> Option<M::Held>
    requires may { MayTakeAt (block frame order) (M.at m.old) }
    requires wide { pair_order ≤ order }
    requires order { order ≤ four_order }
    ensures { Takes M.Held.block_of M.is_exact most_at_words (λ b. b ≡ block frame order)
        (HasHandedOut (tree_of frame) order) result (M.at m.old) (M.at m.new) }
{
    let child = child_of(frame);
    let n = frames_of(order);
    if !try_charge(m, child, n) {
        return None;
    }
    if !claim_words_at(m, child, frame / WORD_FRAMES % CHILD_WORDS, n / WORD_FRAMES) {
        m.refund(child, n);
        return None;
    }
    Some(m.hand_out(frame, order))
}

/// Claims words of the child, from `first` on, whose frames are charged and paid; false where one of
/// them is not clear, or was lost: then none of them stays claimed.
#[inline(always)]
fn claim_words_at<M: Moves>(m: &mut M, child: u32, first: u32, count: u32) -> bool
    requires { MayClaimWordsAt child first count (M.at m.old) }
    ensures { Attempts M.is_exact (most_to_claim_words count)
        (HasClaimedWordsAt (M.at m.old).key child first count)
        (λ ws us. HoldsMoreWords (M.at m.old).key ws us (child_words * child + first) count)
        (AreNotFree (M.at m.old).key (child_words * child + first) count)
        result (M.at m.old) (M.at m.new) }
{
    for i in 0..count {
        if m.load(Place::Bits(CHILD_WORDS * child + first + i)) != 0 {
            return false;
        }
    }
    match claim_words(m, child, first, count) {
        None => true,
        Some(_lost) => false,
    }
}
