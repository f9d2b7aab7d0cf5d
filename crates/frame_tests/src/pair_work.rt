//! Pairs of a take and a give, with the frames of a block paid before and refunded behind.

ghost use Rattle.std.specs.Prelude.{◌≤◌};
ghost use Rattle.frame_tests.specs.Work.{
  MayPay,
  Pays,
  HasPaidFor,
  Refunds,
  IsBack,
  MayWork,
  HasWorked,
};

use frame_core::{Moves, Place};
use frame_table::{CoreSeat, FrameTable, SharedMoves};
use frame_words::{frames_of, tree_free};
use low_frames::{TRIES, give_low, take_in_tree};

/// Pays the frames of a block of the order; false where the tree has too few, or all tries were
/// lost.
pub fn pay<M: Moves>(m: &mut M, tree: u32, order: u8) -> bool
    requires { MayPay tree order (M.at m.old) }
    ensures { Pays tree order result (M.at m.old) (M.at m.new) }
{
    let n = frames_of(order);
    for _i in 0..TRIES {
        let seen = m.load(Place::Tree(tree));
        if tree_free(seen) < n {
            return false;
        }
        if m.tree_pay(tree, seen, n) {
            return true;
        }
    }
    false
}

/// Puts the paid frames of a block of the order back into the tree.
pub fn refund<M: Moves>(m: &mut M, tree: u32, order: u8)
    requires { HasPaidFor tree order (M.at m.old) }
    ensures { Refunds (M.at m.old) (M.at m.new) }
{
    m.tree_refund(tree, frames_of(order));
}

/// Takes a block in the tree, whose frames are paid, and gives it back, so many times. Answers how
/// many takes found a block.
pub fn pairs<M: Moves>(m: &mut M, tree: u32, order: u8, count: u64) -> u64
    requires { HasPaidFor tree order (M.at m.old) }
    ensures back { IsBack (M.at m.old) (M.at m.new) }
    ensures found { result ≤ count }
{
    let mut found = 0;
    for _i in 0..count {
        if pair(m, tree, order) {
            found += 1;
        }
    }
    found
}

#[inline]
fn pair<M: Moves>(m: &mut M, tree: u32, order: u8) -> bool
    requires { HasPaidFor tree order (M.at m.old) }
    ensures { IsBack (M.at m.old) (M.at m.new) }
{
    let Some(block) = take_in_tree(m, tree, order) else {
        return false;
    };
    give_low(m, block);
    true
}

/// Pays, makes the pairs and refunds. Answers how many takes found a block; 0 where nothing could
/// be paid.
pub fn work(table: &FrameTable, core: &mut CoreSeat, tree: u32, order: u8, count: u64) -> u64
    requires { MayWork table.now tree order core.old }
    ensures worked { HasWorked table.now core.old core.new }
    ensures found { result ≤ count }
{
    let mut m = SharedMoves::new(table, core);
    if !pay(&mut m, tree, order) {
        return 0;
    }
    let found = pairs(&mut m, tree, order, count);
    refund(&mut m, tree, order);
    found
}
