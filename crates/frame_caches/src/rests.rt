//! What rests comes last into the list, and leaves it last first.

ghost use Rattle.std.specs.Prelude.{◌≡◌, ◌+◌, ◌<◌, ◌≤◌, ◌∷◌, ◌++◌, [], IfSome, IfNone, length, true, ◌↔◌};
ghost use Rattle.core_frames.specs.Cores.{IsOutOf};
ghost use Rattle.frame_table.specs.Seats.{block_in};
ghost use Rattle.frame_caches.specs.Caches.{core_in, cached_in, room_in, IsCacheOf, StaysCacheOf};

use crate::cached_core::CachedCore;
use core_frames::Allocator;
use frame_table::Block;

impl CachedCore {
    /// The frame that came last, if one rests.
    #[inline(always)]
    pub(crate) fn pop(&mut self, allocator: &Allocator) -> Option<Block>
        requires { IsCacheOf allocator.now self.old }
        ensures cache { StaysCacheOf allocator.now self.old self.new }
        ensures core { core_in self.new ≡ core_in self.old }
        ensures out { IfSome result (IsOutOf allocator.now) }
        ensures single { IfSome result (λ b. (block_in b).order ≡ 0) }
        ensures last { IfSome result (λ b. cached_in self.old ≡ cached_in self.new ++ b ∷ []) }
        ensures none { IfNone result ((cached_in self.old ≡ []) × (cached_in self.new ≡ [])) }
    {
        let _ = allocator;
        self.rest.pop()
    }

    /// The frame rests last.
    #[inline(always)]
    pub(crate) fn push(&mut self, allocator: &Allocator, block: Block)
        requires cache { IsCacheOf allocator.now self.old }
        requires out { IsOutOf allocator.now block }
        requires single { (block_in block).order ≡ 0 }
        requires room { length (cached_in self.old) < room_in self.old }
        ensures cache { StaysCacheOf allocator.now self.old self.new }
        ensures core { core_in self.new ≡ core_in self.old }
        ensures last { cached_in self.new ≡ cached_in self.old ++ block ∷ [] }
    {
        let _ = allocator;
        self.rest.push_reserved(block);
    }

    /// Whether one more frame may rest.
    #[inline(always)]
    pub(crate) fn has_room(&self) -> bool
        ensures { result ≡ true ↔ length (cached_in self.now) < room_in self.now }
    {
        self.rest.len() < self.size
    }
}
