//! Looks at just one block by a core.

ghost use Rattle.std.specs.Prelude.{◌+◌, ◌≤◌};
ghost use Rattle.frame_model.specs.Block.{block};
ghost use Rattle.core_frames.specs.Bounds.{most_to_look};
ghost use Rattle.core_frames.specs.Cores.{moves_by, IsCoreOf, StaysCoreOf};
ghost use Rattle.core_frames.specs.Looks.{LooksThrough};

use crate::looks::is_free_by;
use crate::shared::allocator::{Allocator, Core};
use frame_table::SharedMoves;

impl Allocator {
    /// Are all frames of the block of `2^order` frames that begins at `frame` free? False where the memory
    /// has no such block. Nothing is taken. Beside others it is what one look sees; where nobody else steps
    /// it is exact.
    pub fn is_free(&self, core: &mut Core, frame: u32, order: u8) -> bool
        requires { IsCoreOf self.now core.old }
        ensures core { StaysCoreOf self.now core.old core.new }
        ensures looks { LooksThrough self.now (block frame order) result core.old core.new }
        ensures moves { moves_by core.new ≤ moves_by core.old + most_to_look order }
    {
        let mut m = SharedMoves::new(&self.table, &mut core.seat);
        is_free_by(&mut m, frame, order)
    }
}
