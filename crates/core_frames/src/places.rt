//! Takes of just one block over any moves, with a reserved tree for each core.

ghost use Rattle.std.specs.Prelude.{◌≡◌, ◌≢◌, ◌+◌, ◌≤◌, false, MatchBool, IfErr};
ghost use Rattle.frame_words.specs.Geometry.{huge_order};
ghost use Rattle.frame_model.specs.Block.{block};
ghost use Rattle.low_frames.specs.Takes.{IsSure};
ghost use Rattle.low_frames.specs.Alone.{Turns};
ghost use Rattle.core_frames.specs.Alone.{SameFrames};
ghost use Rattle.core_frames.specs.Bounds.{most_to_pay_at, most_to_take_at};
ghost use Rattle.core_frames.specs.Searches.{MayBegin, MayVisitFor, Brings, HasMade};
ghost use Rattle.core_frames.specs.Places.{LiesWithin, HasPaidIf, HasTooFewOn};
ghost use Rattle.core_frames.specs.Places.{MayTakePlace, TakesPlace, TakesAtBy};

use crate::search::attempts::{try_pay, try_pay_own};
use crate::search::drain::drain_tree;
use crate::search::own_tree::refund;
use frame_core::Moves;
use frame_words::{HUGE_ORDER, TakeFault, frames_of, tree_of};
use low_frames::take_at;

/// Takes the block of `2^order` frames that begins at `frame`, where all of them are free. No other is
/// looked for. Where it was not taken it is contended if an exchange was lost on the way, which is
/// never so where nobody else steps; else there is no block, also where it is not aligned to its size
/// or not wholly inside the memory. What rested on its tree may then stand in the word of the tree.
#[inline(always)]
pub fn take_at_by<M: Moves>(
    m: &mut M,
    core: u32,
    frame: u32,
    order: u8,
) -> Result<M::Held, TakeFault>
    requires { MayBegin core (M.at m.old) }
    ensures takes { TakesAtBy M.Held.block_of M.is_exact (block frame order) result
        (M.at m.old) (M.at m.new) }
    ensures moves { (M.at m.new).view.moves ≤ (M.at m.old).view.moves
        + most_to_take_at (M.at m.old).key }
    ensures sure { IsSure (M.at m.old) → IfErr result (λ fault. fault ≢ TakeFault.Contended) }
{
    if order > HUGE_ORDER {
        return Err(TakeFault::BadOrder);
    }
    if !lies_within(m.geometry().frames(), frame, order) {
        return Err(TakeFault::NoBlock);
    }
    m.clear_missed();
    if let Some(held) = take_place(m, core, frame, order) {
        return Ok(held);
    }
    if m.missed() {
        return Err(TakeFault::Contended);
    }
    Err(TakeFault::NoBlock)
}

/// Is it an aligned block that ends inside a memory of so many frames?
pub(crate) fn lies_within(frames: u32, frame: u32, order: u8) -> bool
    requires { order ≤ huge_order }
    ensures { MatchBool result
        (LiesWithin frames (block frame order))
        (¬ LiesWithin frames (block frame order)) }
{
    let n = frames_of(order);
    frame % n == 0 && n <= frames && frame <= frames - n
}

/// Takes the block, which the memory has.
#[inline(always)]
fn take_place<M: Moves>(m: &mut M, core: u32, frame: u32, order: u8) -> Option<M::Held>
    requires { MayTakePlace core (block frame order) (M.at m.old) }
    ensures { TakesPlace M.Held.block_of M.is_exact (most_to_take_at (M.at m.old).key)
        (block frame order) result (M.at m.old) (M.at m.new) }
{
    let (tree, n) = (tree_of(frame), frames_of(order));
    if !pay_at(m, core, tree, n) {
        return None;
    }
    let Some(held) = take_at(m, frame, order) else {
        refund(m, core, tree, n);
        return None;
    };
    Some(held)
}

/// Pays `n` frames of the tree: from the own reservation, else from the word of the tree, once more
/// after what rested on the tree was put back there. False where it counts fewer, or all tries were
/// lost.
fn pay_at<M: Moves>(m: &mut M, core: u32, tree: u32, n: u32) -> bool
    requires { MayVisitFor core tree (M.at m.old) }
    ensures brings { Brings M.is_exact (most_to_pay_at (M.at m.old).key) (HasPaidIf tree n result)
        (SameFrames (M.at m.old).key) (M.at m.old) (M.at m.new) }
    ensures made { HasMade M.is_exact 1 (most_to_pay_at (M.at m.old).key) (M.at m.old) (M.at m.new) }
    ensures few { result ≡ false → (M.at m.old).is_alone
        → Turns (HasTooFewOn (M.at m.old).key tree n) (M.at m.old).words (M.at m.new).words }
{
    if try_pay_own(m, core, tree, n) {
        return true;
    }
    if try_pay(m, tree, n) {
        return true;
    }
    drain_tree(m, tree);
    try_pay(m, tree, n)
}
