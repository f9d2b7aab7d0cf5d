//! How a cache begins and ends.

ghost use Rattle.std.specs.Prelude.{◌≡◌, ◌≤◌, [], IfOk, IfErr, length};
ghost use Rattle.core_frames.specs.Cores.{IsCoreOf, kept_by, lent_by};
ghost use Rattle.frame_caches.specs.Caches.{core_in, cached_in, room_in, lent_out, most_cached, IsCacheOf};

use crate::cached_core::CachedCore;
use core_frames::{Allocator, Core};
use std::alloc::Global;

impl CachedCore {
    /// A core with room for `size` frames, 0 to 128 ([`MOST_CACHED`](crate::MOST_CACHED)), of which none rests
    /// yet. Where there is no memory for the list the core is handed back.
    pub fn new(
        alloc: Global,
        allocator: &Allocator,
        core: Core,
        size: usize,
    ) -> Result<CachedCore, Core>
        requires core { IsCoreOf allocator.now core }
        requires size { size ≤ most_cached }
        ensures cache { IfOk result (IsCacheOf allocator.now) }
        ensures core { IfOk result (λ c. core_in c ≡ core) }
        ensures empty { IfOk result (λ c. cached_in c ≡ []) }
        ensures size { IfOk result (λ c. room_in c ≡ size) }
        ensures back { IfErr result (λ c. c ≡ core) }
    {
        let _ = allocator;
        match Vec::with_capacity(alloc, size) {
            Ok(rest) => Ok(CachedCore { core, rest, size }),
            Err(_) => Err(core),
        }
    }

    /// How many frames rest with the core.
    pub fn resting(&self) -> usize
        ensures { result ≡ length (cached_in self.now) }
    {
        self.rest.len()
    }

    /// The core, once all that rested with it is given back: it closes as if there had been no cache.
    pub fn into_core(self, allocator: &Allocator) -> Core
        requires { IsCacheOf allocator.now self }
        ensures core { IsCoreOf allocator.now result }
        ensures kept { kept_by result ≡ kept_by (core_in self) }
        ensures lent { lent_by result ≡ lent_out self }
    {
        let mut cache = self;
        cache.drain(allocator);
        let CachedCore { core, .. } = cache;
        core
    }
}
