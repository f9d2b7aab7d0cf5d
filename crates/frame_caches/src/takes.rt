//! Takes through a cache.

ghost use Rattle.std.specs.Prelude.{◌≡◌, ◌+◌, ◌<◌, ◌≤◌, [], IfOk, IfErr, length};
ghost use Rattle.core_frames.specs.Bounds.{most_in_fill};
ghost use Rattle.core_frames.specs.Cores.{memory_of, moves_by, kept_by, IsSureOf};
ghost use Rattle.frame_caches.specs.Bounds.{most_in_cached_take};
ghost use Rattle.frame_caches.specs.Caches.{core_in, cached_in, lent_out, most_refilled, IsCacheOf, StaysCacheOf};
ghost use Rattle.frame_caches.specs.Uses.{IsRefusedBehind, TakesBehind, TakesLast};

use crate::cached_core::CachedCore;
use core_frames::Allocator;
use frame_table::Block;
use frame_words::TakeFault;

impl CachedCore {
    /// Takes a block of `2^order` frames: a single one that rests, where one does, with no step of the
    /// allocator; else single frames of the core's own tree come to rest first. A larger one is refused only
    /// once nothing rests any more.
    #[inline(always)]
    pub fn take(&mut self, allocator: &Allocator, order: u8) -> Result<Block, TakeFault>
        requires { IsCacheOf allocator.now self.old }
        ensures cache { StaysCacheOf allocator.now self.old self.new }
        ensures kept { kept_by (core_in self.new) ≡ kept_by (core_in self.old) }
        ensures taken { IfOk result (λ b. TakesBehind allocator.now order b self.old self.new) }
        ensures refused { IfErr result (λ fault.
            IsRefusedBehind allocator.now order fault self.old self.new) }
        ensures moves { moves_by (core_in self.new) ≤ moves_by (core_in self.old)
            + most_in_cached_take (memory_of allocator.now) }
        ensures hits { order ≡ 0 → 0 < length (cached_in self.old) → TakesLast result self.old self.new }
    {
        if order > 0 {
            return self.take_larger(allocator, order);
        }
        match self.pop(allocator) {
            Some(block) => Ok(block),
            None => self.take_anew(allocator),
        }
    }

    // Single frames of the own tree come to rest; where it has none a take of one reserves the next tree.
    #[inline(never)]
    fn take_anew(&mut self, allocator: &Allocator) -> Result<Block, TakeFault>
        requires cache { IsCacheOf allocator.now self.old }
        requires empty { cached_in self.old ≡ [] }
        ensures cache { StaysCacheOf allocator.now self.old self.new }
        ensures kept { kept_by (core_in self.new) ≡ kept_by (core_in self.old) }
        ensures taken { IfOk result (λ b. TakesBehind allocator.now 0 b self.old self.new) }
        ensures refused { IfErr result (λ fault.
            IsRefusedBehind allocator.now 0 fault self.old self.new) }
        ensures moves { moves_by (core_in self.new) ≤ moves_by (core_in self.old)
            + most_in_cached_take (memory_of allocator.now) }
    {
        self.refill(allocator);
        match self.pop(allocator) {
            Some(block) => Ok(block),
            None => allocator.take(&mut self.core, 0),
        }
    }

    // Half of what the list has room for comes to rest, as far as the own tree has it.
    fn refill(&mut self, allocator: &Allocator)
        requires cache { IsCacheOf allocator.now self.old }
        requires empty { cached_in self.old ≡ [] }
        ensures cache { StaysCacheOf allocator.now self.old self.new }
        ensures kept { kept_by (core_in self.new) ≡ kept_by (core_in self.old) }
        ensures lent { lent_out self.new ≡ lent_out self.old }
        ensures sure { IsSureOf allocator.now (core_in self.old) → IsSureOf allocator.now (core_in self.new) }
        ensures moves { moves_by (core_in self.new) ≤ moves_by (core_in self.old)
            + most_in_fill most_refilled }
    {
        let most = self.half();
        allocator.take_more(&mut self.core, most as u32, &mut self.rest);
    }

    // Behind a refusal what rests is given back, and the take is made once more.
    #[inline(always)]
    fn take_larger(&mut self, allocator: &Allocator, order: u8) -> Result<Block, TakeFault>
        requires cache { IsCacheOf allocator.now self.old }
        requires order { 0 < order }
        ensures cache { StaysCacheOf allocator.now self.old self.new }
        ensures kept { kept_by (core_in self.new) ≡ kept_by (core_in self.old) }
        ensures taken { IfOk result (λ b. TakesBehind allocator.now order b self.old self.new) }
        ensures refused { IfErr result (λ fault.
            IsRefusedBehind allocator.now order fault self.old self.new) }
        ensures moves { moves_by (core_in self.new) ≤ moves_by (core_in self.old)
            + most_in_cached_take (memory_of allocator.now) }
    {
        match allocator.take(&mut self.core, order) {
            Ok(block) => Ok(block),
            Err(TakeFault::BadOrder) => Err(TakeFault::BadOrder),
            Err(fault) => {
                if self.resting() == 0 {
                    return Err(fault);
                }
                self.drain(allocator);
                allocator.take(&mut self.core, order)
            }
        }
    }
}
