//! Joins of blocks over any moves.

ghost use Rattle.std.specs.Prelude.{◌≡◌, ◌+◌, ◌^◌, ◌<◌, ◌≤◌, MatchBool, OnErr};
ghost use Rattle.frame_model.specs.Block.{block};
ghost use Rattle.core_frames.specs.Bounds.{most_in_join};
ghost use Rattle.core_frames.specs.Joins.{AreBuddies, MayJoinBlocks, JoinsBy};

use frame_core::{HeldBlock, Moves};
use frame_words::{HUGE_ORDER, frames_of};

/// Hands out one block in place of two buddies below order 8, the lower first. Any other two are
/// handed back. No word is written.
#[inline(always)]
pub fn join_by<M: Moves>(
    m: &mut M,
    lower: M::Held,
    upper: M::Held,
) -> Result<M::Held, (M::Held, M::Held)>
    requires { MayJoinBlocks lower upper (M.at m.old) }
    ensures joins { JoinsBy M.Held.block_of M.is_exact lower upper result (M.at m.old) (M.at m.new) }
    ensures moves { (M.at m.new).view.moves ≤ (M.at m.old).view.moves + most_in_join }
    ensures same { OnErr result (m.new ≡ m.old) }
{
    let (frame, order) = (lower.frame(), lower.order());
    if !are_buddies(frame, order, upper.frame(), upper.order()) {
        return Err((lower, upper));
    }
    m.hand_in(lower);
    m.hand_in(upper);
    Ok(m.hand_out(frame, order + 1))
}

/// Are these the first frames and the orders of buddies below order 8?
#[inline(always)]
fn are_buddies(frame: u32, order: u8, next: u32, next_order: u8) -> bool
    requires { frame + 2 ^ order < 2 ^ 32 }
    ensures { MatchBool result
        (AreBuddies (block frame order) (block next next_order))
        (¬ AreBuddies (block frame order) (block next next_order)) }
{
    order < HUGE_ORDER - 1
        && next_order == order
        && frame % frames_of(order + 1) == 0
        && next == frame + frames_of(order)
}
