//! A take and a give, each for itself: the frames of the block are paid just before, and refunded
//! just behind.

ghost use Rattle.frame_tests.specs.Work.{
  MayPay,
  TakesOne,
  MayGiveIdle,
  GivesOne,
  MayWork,
  TookOne,
  MayGiveAt,
  GaveOne,
};

use super::pair_work::{pay, refund};
use frame_core::{HeldBlock, Moves};
use frame_table::{Block, CoreSeat, FrameTable, SharedMoves};
use frame_words::tree_of;
use low_frames::{give_low, take_in_tree};

/// A block of the order in the tree. None where its frames could not be paid, or where the search
/// found no block.
pub fn take_one(table: &FrameTable, core: &mut CoreSeat, tree: u32, order: u8) -> Option<Block>
    requires { MayWork table.now tree order core.old }
    ensures { TookOne table.now tree order result core.old core.new }
{
    let mut m = SharedMoves::new(table, core);
    take_paid(&mut m, tree, order)
}

/// Gives the block back, whichever core took it.
pub fn give_one(table: &FrameTable, core: &mut CoreSeat, block: Block)
    requires { MayGiveAt table.now block core.old }
    ensures { GaveOne table.now core.old core.new }
{
    let mut m = SharedMoves::new(table, core);
    give_refunded(&mut m, block);
}

fn take_paid<M: Moves>(m: &mut M, tree: u32, order: u8) -> Option<M::Held>
    requires { MayPay tree order (M.at m.old) }
    ensures { TakesOne M.Held.block_of tree order result (M.at m.old) (M.at m.new) }
{
    if !pay(m, tree, order) {
        return None;
    }
    let Some(held) = take_in_tree(m, tree, order) else {
        refund(m, tree, order);
        return None;
    };
    Some(held)
}

fn give_refunded<M: Moves>(m: &mut M, held: M::Held)
    requires { MayGiveIdle held (M.at m.old) }
    ensures { GivesOne (M.at m.old) (M.at m.new) }
{
    let (tree, order) = (tree_of(held.frame()), held.order());
    give_low(m, held);
    refund(m, tree, order);
}
