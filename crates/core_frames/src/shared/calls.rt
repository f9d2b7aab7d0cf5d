//! Takes and gives of cores.

ghost use Rattle.std.specs.Prelude.{◌≡◌, ◌+◌, ◌≤◌};
ghost use Rattle.frame_words.specs.Geometry.{huge_order};
ghost use Rattle.frame_model.specs.Block.{block};
ghost use Rattle.core_frames.specs.Bounds.{most_moves, most_in_give};
ghost use Rattle.frame_table.specs.Seats.{block_in};
ghost use Rattle.core_frames.specs.Cores.{memory_of, moves_by, StepsAlone, IsSureOf, IsOutOf};
ghost use Rattle.core_frames.specs.Cores.{IsCoreOf, StaysCoreOf, RecordsGiveAt};
ghost use Rattle.core_frames.specs.Found.{IsOutAs};
ghost use Rattle.core_frames.specs.Uses.{TakesThrough, HasGiven, GivesAlone, GivesAsCore};

use crate::gives::give_by;
use crate::shared::allocator::{Allocator, Core};
use crate::shared::found::Found;
use frame_core::HeldBlock;
use frame_table::{Block, SharedMoves};
use frame_words::{HUGE_ORDER, TakeFault};

impl Allocator {
    /// Takes a block of `2^order` frames. No memory is needed, and nobody waits.
    #[inline(always)]
    pub fn take(&self, core: &mut Core, order: u8) -> Result<Block, TakeFault>
        requires { IsCoreOf self.now core.old }
        ensures core { StaysCoreOf self.now core.old core.new }
        ensures takes { TakesThrough self.now order result core.old core.new }
        ensures moves { moves_by core.new ≤ moves_by core.old
            + most_moves (memory_of self.now) }
    {
        if order > HUGE_ORDER {
            return Err(TakeFault::BadOrder);
        }
        match self.find(core, order) {
            Ok(found) => Ok(found.with_order(order)),
            Err(0) => Err(TakeFault::NoBlock),
            Err(_) => Err(TakeFault::Contended),
        }
    }

    /// Gives the block back, whichever core took it. It always succeeds. No memory is needed, and
    /// nobody waits.
    // Huge frames have a body of their own, as in a search.
    #[inline(always)]
    pub fn give(&self, core: &mut Core, block: Block)
        requires core { IsCoreOf self.now core.old }
        requires block { IsOutOf self.now block }
        ensures core { StaysCoreOf self.now core.old core.new }
        ensures gives { HasGiven core.old core.new }
        ensures record { RecordsGiveAt (block_in block).frame core.old core.new }
        ensures alone { GivesAlone self.now (block_in block) core.old core.new }
        ensures sure { StepsAlone self.now core.old → IsSureOf self.now core.new }
        ensures moves { moves_by core.new ≤ moves_by core.old + most_in_give }
    {
        let order = block.order();
        let found = Found::of(block);
        if order == HUGE_ORDER {
            self.give_huge(core, found);
        } else {
            self.give_any(core, found, order);
        }
    }

    #[inline(never)]
    fn give_huge(&self, core: &mut Core, found: Found)
        requires core { IsCoreOf self.now core.old }
        requires found { IsOutAs self.now huge_order found }
        ensures gives { GivesAsCore self.now (block found.frame huge_order) core.old core.new }
        ensures record { RecordsGiveAt found.frame core.old core.new }
    {
        self.give_of(core, found.with_order(HUGE_ORDER));
    }

    #[inline(never)]
    fn give_any(&self, core: &mut Core, found: Found, order: u8)
        requires core { IsCoreOf self.now core.old }
        requires found { IsOutAs self.now order found }
        ensures gives { GivesAsCore self.now (block found.frame order) core.old core.new }
        ensures record { RecordsGiveAt found.frame core.old core.new }
    {
        self.give_of(core, found.with_order(order));
    }

    #[inline(always)]
    fn give_of(&self, core: &mut Core, block: Block)
        requires core { IsCoreOf self.now core.old }
        requires block { IsOutOf self.now block }
        ensures gives { GivesAsCore self.now (block_in block) core.old core.new }
        ensures record { RecordsGiveAt (block_in block).frame core.old core.new }
    {
        let mut m = SharedMoves::new(&self.table, &mut core.seat);
        give_by(&mut m, &mut core.habit, block);
    }
}
