//! Takes of just one block by a core.

ghost use Rattle.std.specs.Prelude.{◌+◌, ◌≤◌};
ghost use Rattle.frame_model.specs.Block.{block};
ghost use Rattle.core_frames.specs.Bounds.{most_to_take_at};
ghost use Rattle.core_frames.specs.Cores.{memory_of, moves_by, IsCoreOf, StaysCoreOf};
ghost use Rattle.core_frames.specs.Places.{TakesPlaceThrough};

use crate::places::take_at_by;
use crate::shared::allocator::{Allocator, Core};
use frame_table::{Block, SharedMoves};
use frame_words::TakeFault;

impl Allocator {
    /// Takes the block of `2^order` frames that begins at `frame`, where all of them are free. No other
    /// is looked for: `NoBlock` also where it is not aligned to its size or not wholly inside the
    /// memory. No memory is needed, and nobody waits.
    #[inline(never)]
    pub fn take_at(&self, core: &mut Core, frame: u32, order: u8) -> Result<Block, TakeFault>
        requires { IsCoreOf self.now core.old }
        ensures core { StaysCoreOf self.now core.old core.new }
        ensures takes { TakesPlaceThrough self.now (block frame order) result core.old core.new }
        ensures moves { moves_by core.new ≤ moves_by core.old
            + most_to_take_at (memory_of self.now) }
    {
        let mut m = SharedMoves::new(&self.table, &mut core.seat);
        take_at_by(&mut m, core.habit.core, frame, order)
    }
}
