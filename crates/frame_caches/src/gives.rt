//! Gives through a cache.

ghost use Rattle.std.specs.Prelude.{◌≡◌, ◌+◌, ◌-◌, ◌*◌, ◌<◌, ◌≤◌, ◌∷◌, ◌++◌, [], pos, length, drop, take, ◌-ℤ◌};
ghost use Rattle.core_frames.specs.Bounds.{most_in_give};
ghost use Rattle.core_frames.specs.Cores.{moves_by, kept_by, StepsAlone, IsSureOf, IsOutOf};
ghost use Rattle.frame_table.specs.Seats.{block_in};
ghost use Rattle.frame_caches.specs.Bounds.{most_in_cached_give};
ghost use Rattle.frame_caches.specs.Caches.{core_in, cached_in, room_in, half_of, lent_out, most_refilled, IsCacheOf, StaysCacheOf};
ghost use Rattle.frame_caches.specs.Uses.{GivesRestBack};

use crate::cached_core::CachedCore;
use core_frames::Allocator;
use frame_core::HeldBlock;
use frame_table::Block;

impl CachedCore {
    /// Gives the block back, whichever core took it. A single frame comes to rest; where there is no room the
    /// older half of what rests goes back first. It always succeeds.
    #[inline(always)]
    pub fn give(&mut self, allocator: &Allocator, block: Block)
        requires cache { IsCacheOf allocator.now self.old }
        requires out { IsOutOf allocator.now block }
        ensures cache { StaysCacheOf allocator.now self.old self.new }
        ensures kept { kept_by (core_in self.new) ≡ kept_by (core_in self.old) }
        ensures lent { lent_out self.new ≡ lent_out self.old -ℤ pos 1 }
        ensures moves { moves_by (core_in self.new) ≤ moves_by (core_in self.old)
            + most_in_cached_give }
        ensures larger { 0 < (block_in block).order → cached_in self.new ≡ cached_in self.old }
        ensures rests { (block_in block).order ≡ 0 → length (cached_in self.old) < room_in self.old
            → (core_in self.new ≡ core_in self.old) × (cached_in self.new ≡ cached_in self.old ++ block ∷ []) }
    {
        if block.order() > 0 {
            allocator.give(&mut self.core, block);
            return;
        }
        if !self.has_room() {
            self.flush(allocator);
        }
        if self.has_room() {
            self.push(allocator, block);
        } else {
            allocator.give(&mut self.core, block);
        }
    }

    // Half of what the list has room for, rounded up.
    #[inline(always)]
    pub(crate) fn half(&self) -> usize
        requires { room_in self.now ≤ 128 }
        ensures { result ≡ half_of self.now }
    {
        self.size - self.size / 2
    }

    // Gives the older half of a full list back.
    #[inline(never)]
    pub(crate) fn flush(&mut self, allocator: &Allocator)
        requires cache { IsCacheOf allocator.now self.old }
        requires full { room_in self.old ≤ length (cached_in self.old) }
        ensures gives { GivesRestBack allocator.now (half_of self.old) self.old self.new }
        ensures newer { cached_in self.new ≡ drop (half_of self.old) (cached_in self.old) }
    {
        let count = self.half();
        self.turn(allocator, count);
        self.give_last(allocator, count);
    }

    // The oldest ones come last.
    fn turn(&mut self, allocator: &Allocator, count: usize)
        requires cache { IsCacheOf allocator.now self.old }
        requires enough { count ≤ length (cached_in self.old) }
        ensures cache { StaysCacheOf allocator.now self.old self.new }
        ensures core { core_in self.new ≡ core_in self.old }
        ensures turned { cached_in self.new ≡ drop count (cached_in self.old) ++ take count (cached_in self.old) }
    {
        let _ = allocator;
        self.rest.as_mut_slice().rotate_left(count);
    }

    // Gives so many of those that came last back.
    fn give_last(&mut self, allocator: &Allocator, count: usize)
        requires cache { IsCacheOf allocator.now self.old }
        requires enough { count ≤ length (cached_in self.old) }
        ensures gives { GivesRestBack allocator.now count self.old self.new }
        ensures first { cached_in self.new ≡ take (length (cached_in self.old) - count) (cached_in self.old) }
    {
        for _i in 0..count {
            self.give_one(allocator);
        }
    }

    // Gives the one that came last back.
    #[inline(always)]
    fn give_one(&mut self, allocator: &Allocator)
        requires cache { IsCacheOf allocator.now self.old }
        requires some { 0 < length (cached_in self.old) }
        ensures gives { GivesRestBack allocator.now 1 self.old self.new }
        ensures first { cached_in self.new ≡ take (length (cached_in self.old) - 1) (cached_in self.old) }
    {
        let Some(block) = self.pop(allocator) else {
            unreachable!()
        };
        allocator.give(&mut self.core, block);
    }

    /// Gives all that rests back.
    pub fn drain(&mut self, allocator: &Allocator)
        requires { IsCacheOf allocator.now self.old }
        ensures cache { StaysCacheOf allocator.now self.old self.new }
        ensures empty { cached_in self.new ≡ [] }
        ensures kept { kept_by (core_in self.new) ≡ kept_by (core_in self.old) }
        ensures lent { lent_out self.new ≡ lent_out self.old }
        ensures sure { StepsAlone allocator.now (core_in self.old) → 0 < length (cached_in self.old)
            → IsSureOf allocator.now (core_in self.new) }
        ensures moves { moves_by (core_in self.new) ≤ moves_by (core_in self.old)
            + most_in_give * length (cached_in self.old) }
    {
        let count = self.rest.len();
        self.give_last(allocator, count);
    }
}
