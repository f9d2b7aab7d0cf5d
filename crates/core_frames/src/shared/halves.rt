//! Splits and joins of blocks through a core.

ghost use Rattle.std.specs.Prelude.{◌+◌, ◌≤◌};
ghost use Rattle.core_frames.specs.Bounds.{most_in_split, most_in_join};
ghost use Rattle.core_frames.specs.Cores.{moves_by, IsCoreOf, StaysCoreOf, KeepsHabit, IsOutOf};
ghost use Rattle.core_frames.specs.Uses.{SplitsThrough, JoinsThrough};

use crate::joins::join_by;
use crate::shared::allocator::{Allocator, Core};
use crate::splits::split_by;
use frame_table::{Block, SharedMoves};

impl Allocator {
    /// The halves of the block, the lower first. A block of order 0 has none, and is handed back.
    pub fn split(&self, core: &mut Core, block: Block) -> Result<(Block, Block), Block>
        requires core { IsCoreOf self.now core.old }
        requires block { IsOutOf self.now block }
        ensures core { StaysCoreOf self.now core.old core.new }
        ensures habit { KeepsHabit core.old core.new }
        ensures splits { SplitsThrough self.now block result core.old core.new }
        ensures moves { moves_by core.new ≤ moves_by core.old + most_in_split }
    {
        let mut m = SharedMoves::new(&self.table, &mut core.seat);
        split_by(&mut m, block)
    }

    /// The block of two buddies below order 8, the lower first, which are out no more. Any other two
    /// are handed back. No word is written.
    pub fn join(&self, core: &mut Core, lower: Block, upper: Block) -> Result<Block, (Block, Block)>
        requires core { IsCoreOf self.now core.old }
        requires blocks { IsOutOf self.now lower × IsOutOf self.now upper }
        ensures core { StaysCoreOf self.now core.old core.new }
        ensures habit { KeepsHabit core.old core.new }
        ensures joins { JoinsThrough self.now lower upper result core.old core.new }
        ensures moves { moves_by core.new ≤ moves_by core.old + most_in_join }
    {
        let mut m = SharedMoves::new(&self.table, &mut core.seat);
        join_by(&mut m, lower, upper)
    }
}
