//! Blocks that a core keeps: they stay held, without a value that stands for them.

ghost use Rattle.std.specs.Prelude.{◌≡◌, ◌+◌, ◌≤◌, ℕ, Contains};
ghost use Rattle.frame_model.specs.Block.{block as block_at, covers};
ghost use Rattle.frame_model.specs.Holding.{IsHolding};
ghost use Rattle.frame_table.specs.Keeping.{HasKept, HasRecalled};
ghost use Rattle.frame_table.specs.Seats.{block_in};
ghost use Rattle.core_frames.specs.Bounds.{to_tell_apart};
ghost use Rattle.core_frames.specs.Cores.{memory_of, view_in, kept_by, lent_by, moves_by};
ghost use Rattle.core_frames.specs.Cores.{IsOutOf, IsCoreOf, StaysCoreOf, KeepsHabit};
ghost use Rattle.core_frames.specs.Uses.{IsSameAfter};

use crate::shared::allocator::{Allocator, Core};
use frame_core::{HeldBlock, Moves, Place};
use frame_table::{Block, SharedMoves};

impl Allocator {
    /// The core keeps the block. The answer is its first frame and its order.
    pub fn keep(&self, core: &mut Core, block: Block) -> (u32, u8)
        requires core { IsCoreOf self.now core.old }
        requires block { IsOutOf self.now block }
        ensures core { StaysCoreOf self.now core.old core.new }
        ensures habit { KeepsHabit core.old core.new }
        ensures keeps { HasKept (block_in block) (view_in core.old) (view_in core.new) }
        ensures moves { moves_by core.new ≡ moves_by core.old + 1 }
        ensures answer { block_at result.0 result.1 ≡ block_in block }
    {
        let answer = (block.frame(), block.order());
        let mut m = SharedMoves::new(&self.table, &mut core.seat);
        m.keep_in(block);
        answer
    }

    /// The block that the core keeps, which it keeps no more.
    pub fn recall(&self, core: &mut Core, frame: u32, order: u8) -> Block
        requires core { IsCoreOf self.now core.old }
        requires kept { Contains (kept_by core.old) (block_at frame order) }
        ensures core { StaysCoreOf self.now core.old core.new }
        ensures habit { KeepsHabit core.old core.new }
        ensures recalls { HasRecalled (block_at frame order) (view_in core.old) (view_in core.new) }
        ensures moves { moves_by core.new ≡ moves_by core.old + 1 }
        ensures block { (block_in result ≡ block_at frame order) × IsOutOf self.now result }
    {
        let mut m = SharedMoves::new(&self.table, &mut core.seat);
        m.recall(frame, order)
    }

    /// Hands two blocks back that are out, of whatever cores and threads, and tells that they share
    /// no frame. It makes five moves, and no memory is needed.
    pub fn tell_apart(&self, core: &mut Core, first: Block, second: Block) -> (Block, Block)
        requires core { IsCoreOf self.now core.old }
        requires blocks { IsOutOf self.now first × IsOutOf self.now second }
        ensures core { StaysCoreOf self.now core.old core.new }
        ensures habit { KeepsHabit core.old core.new }
        ensures view { IsSameAfter to_tell_apart (view_in core.old) (view_in core.new) }
        ensures same { (block_in result.0 ≡ block_in first) × (block_in result.1 ≡ block_in second) }
        ensures out { IsOutOf self.now result.0 × IsOutOf self.now result.1 }
        ensures apart { (x : ℕ) → covers (block_in first) x + covers (block_in second) x ≤ 1 }
    {
        let (frame, order) = self.keep(core, first);
        let (other_frame, other_order) = self.keep(core, second);
        self.look(core);
        let second = self.recall(core, other_frame, other_order);
        (self.recall(core, frame, order), second)
    }

    /// One load, after which the blocks that the core keeps are known to be apart.
    pub(crate) fn look(&self, core: &mut Core)
        requires { IsCoreOf self.now core.old }
        ensures core { StaysCoreOf self.now core.old core.new }
        ensures habit { KeepsHabit core.old core.new }
        ensures kept { kept_by core.new ≡ kept_by core.old }
        ensures lent { lent_by core.new ≡ lent_by core.old }
        ensures view { IsSameAfter 1 (view_in core.old) (view_in core.new) }
        ensures apart { IsHolding (memory_of self.now) (kept_by core.new) }
    {
        let mut m = SharedMoves::new(&self.table, &mut core.seat);
        m.load(Place::Local(core.habit.core));
    }
}
