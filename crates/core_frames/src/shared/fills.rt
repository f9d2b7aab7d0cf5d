//! Takes of several single frames by a core.

ghost use Rattle.std.specs.Prelude.{◌≡◌, ◌+◌, ◌≤◌, vec_len, vec_capacity};
ghost use Rattle.core_frames.specs.Cores.{IsCoreOf, StaysCoreOf, KeepsHabit};
ghost use Rattle.core_frames.specs.Fills.{HasTakenMore};

use crate::search::fills::take_some_own;
use crate::shared::allocator::{Allocator, Core};
use frame_table::{Block, SharedMoves};

impl Allocator {
    /// Takes up to `n` single frames of those that rest with the core, lays them behind the others, and
    /// answers how many. A take of one frame lets others rest, where its tree has some.
    #[inline(never)]
    pub fn take_more(&self, core: &mut Core, n: u32, out: &mut Vec<Block>) -> u32
        requires core { IsCoreOf self.now core.old }
        requires room { vec_len out.old + n ≤ vec_capacity out.old }
        ensures core { StaysCoreOf self.now core.old core.new }
        ensures habit { KeepsHabit core.old core.new }
        ensures takes { HasTakenMore self.now result n out.old.items out.new.items core.old core.new }
        ensures few { result ≤ n }
        ensures room { vec_capacity out.new ≡ vec_capacity out.old }
        ensures len { vec_len out.new ≡ vec_len out.old + result }
    {
        let mut m = SharedMoves::new(&self.table, &mut core.seat);
        take_some_own(&mut m, core.habit.core, n, out)
    }
}
