//! Splits of blocks over any moves.

ghost use Rattle.std.specs.Prelude.{◌≡◌, ◌+◌, ◌*◌, ◌≤◌, OnErr};
ghost use Rattle.frame_words.specs.Geometry.{child_frames, huge_order};
ghost use Rattle.frame_model.specs.Block.{block};
ghost use Rattle.core_frames.specs.Bounds.{most_to_break_up, most_in_split};
ghost use Rattle.core_frames.specs.Splits.{
  MaySplit,
  SplitsBy,
  MayBringIn,
  BringsIn,
  MayBreakUp,
  TurnsRecalled,
  HasBrokenUp,
  LosesFlag,
  MayHandOutTwo,
  HandsOutTwo,
};

use frame_core::{HeldBlock, Moves};
use frame_words::{CHILD_WORDS, HUGE_ORDER, child_of, frames_of};

/// Hands out the halves of a block in its place, the lower first. A block of order 0 has none, and
/// is handed back.
pub fn split_by<M: Moves>(m: &mut M, held: M::Held) -> Result<(M::Held, M::Held), M::Held>
    requires { MaySplit held (M.at m.old) }
    ensures splits { SplitsBy M.Held.block_of M.is_exact held result (M.at m.old) (M.at m.new) }
    ensures moves { (M.at m.new).view.moves ≤ (M.at m.old).view.moves + most_in_split }
    ensures same { OnErr result (m.new ≡ m.old) }
{
    let (frame, order) = (held.frame(), held.order());
    if order == 0 {
        return Err(held);
    }
    bring_in(m, held);
    Ok(hand_out_halves(m, frame, order - 1))
}

/// Takes in a block that has halves: what is in flight then are frames that can leave by halves.
fn bring_in<M: Moves>(m: &mut M, held: M::Held)
    requires { MayBringIn M.Held.block_of held (M.at m.old) }
    ensures { BringsIn M.Held.block_of M.is_exact held (M.at m.old) (M.at m.new) }
{
    let (frame, order) = (held.frame(), held.order());
    m.hand_in(held);
    if order < HUGE_ORDER {
        return;
    }
    break_up(m, child_of(frame));
}

/// The huge frame in flight becomes two blocks of order 8. The bits go up before the flag goes
/// down, so that its frames are held all the time.
fn break_up<M: Moves>(m: &mut M, child: u32)
    requires { MayBreakUp child (M.at m.old) }
    ensures { TurnsRecalled M.is_exact most_to_break_up (HasBrokenUp child)
        (LosesFlag (M.at m.old).key (block (child_frames * child) huge_order))
        (M.at m.old) (M.at m.new) }
{
    for i in 0..CHILD_WORDS {
        m.fill_word(CHILD_WORDS * child + i);
    }
    m.drop_flag(child);
}

/// Hands out a block of the order, and the one behind it, which are all that is in flight.
fn hand_out_halves<M: Moves>(m: &mut M, frame: u32, order: u8) -> (M::Held, M::Held)
    requires { MayHandOutTwo frame order (M.at m.old) }
    ensures { HandsOutTwo M.Held.block_of M.is_exact frame order result.0 result.1
        (M.at m.old) (M.at m.new) }
{
    let lower = m.hand_out(frame, order);
    let upper = m.hand_out(frame + frames_of(order), order);
    (lower, upper)
}
