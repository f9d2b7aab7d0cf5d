//! Calls that pass through to the core, and leave what rests as it is.

ghost use Rattle.std.specs.Prelude.{◌≡◌, ◌+◌, ◌≤◌};
ghost use Rattle.frame_model.specs.Report.{free_frames};
ghost use Rattle.frame_model.specs.Words.{entry_word_count};
ghost use Rattle.low_frames.specs.Alone.{FindsOf};
ghost use Rattle.core_frames.specs.Bounds.{most_in_split, most_in_join};
ghost use Rattle.core_frames.specs.Cores.{memory_of, moves_by, view_in, known_by, StepsAlone, IsOutOf};
ghost use Rattle.core_frames.specs.Uses.{SplitsThrough, JoinsThrough, IsSameAfter};
ghost use Rattle.frame_caches.specs.Caches.{core_in, cached_in, IsCacheOf, StaysCacheOf};

use crate::cached_core::CachedCore;
use core_frames::Allocator;
use frame_table::Block;

impl CachedCore {
    /// The two halves of the block, the lower first. One of order 0 is handed back.
    pub fn split(&mut self, allocator: &Allocator, block: Block) -> Result<(Block, Block), Block>
        requires cache { IsCacheOf allocator.now self.old }
        requires block { IsOutOf allocator.now block }
        ensures cache { StaysCacheOf allocator.now self.old self.new }
        ensures rests { cached_in self.new ≡ cached_in self.old }
        ensures splits { SplitsThrough allocator.now block result (core_in self.old) (core_in self.new) }
        ensures moves { moves_by (core_in self.new) ≤ moves_by (core_in self.old) + most_in_split }
    {
        allocator.split(&mut self.core, block)
    }

    /// The block of two buddies below order 8, the lower first. Any other two are handed back.
    pub fn join(
        &mut self,
        allocator: &Allocator,
        lower: Block,
        upper: Block,
    ) -> Result<Block, (Block, Block)>
        requires cache { IsCacheOf allocator.now self.old }
        requires blocks { IsOutOf allocator.now lower × IsOutOf allocator.now upper }
        ensures cache { StaysCacheOf allocator.now self.old self.new }
        ensures rests { cached_in self.new ≡ cached_in self.old }
        ensures joins { JoinsThrough allocator.now lower upper result (core_in self.old) (core_in self.new) }
        ensures moves { moves_by (core_in self.new) ≤ moves_by (core_in self.old) + most_in_join }
    {
        allocator.join(&mut self.core, lower, upper)
    }

    /// How many frames are free, as [`Allocator::free_frames`] counts them. What rests counts as held.
    pub fn free_frames(&mut self, allocator: &Allocator) -> u32
        requires { IsCacheOf allocator.now self.old }
        ensures cache { StaysCacheOf allocator.now self.old self.new }
        ensures rests { cached_in self.new ≡ cached_in self.old }
        ensures view { IsSameAfter (entry_word_count (memory_of allocator.now)) (view_in (core_in self.old))
            (view_in (core_in self.new)) }
        ensures few { result ≤ (memory_of allocator.now).frames }
        ensures alone { StepsAlone allocator.now (core_in self.old) → FindsOf
            (λ words. result ≡ free_frames (memory_of allocator.now) words)
            (known_by (core_in self.old)) (known_by (core_in self.new)) }
    {
        allocator.free_frames(&mut self.core)
    }
}
