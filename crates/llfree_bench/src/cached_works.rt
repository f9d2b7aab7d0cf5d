//! Takes and gives of single frames, which rest with the core between them.

ghost use Rattle.core_frames.specs.Cores.{IsCoreOf};
ghost use Rattle.frame_caches.specs.Caches.{IsCacheOf};
ghost use Rattle.llfree_bench.specs.Hands.{IsHandOf};

use crate::hand::Hand;
use core_frames::{Allocator, Core};
use frame_caches::CachedCore;
use std::alloc::Global;

/// How many frames may rest with a core.
const ROOM: usize = 64;

impl Hand {
    /// So many takes of a frame, each with its give, through a cache that lives as long. All of them are
    /// refused where there is no memory for it.
    pub fn cached(self, alloc: Global, memory: &Allocator, count: u32) -> Hand
        requires { IsHandOf memory.now self }
        ensures { IsHandOf memory.entry.now result }
    {
        let Hand {
            core,
            blocks,
            random,
            most,
            ..
        } = self;
        let (core, refused) = match CachedCore::new(alloc, memory, core, ROOM) {
            Ok(cache) => pairs(memory, cache, count),
            Err(core) => (core, u64::from(count)),
        };
        Hand {
            core,
            blocks,
            random,
            most,
            refused,
        }
    }
}

// The core, and how many takes were refused.
fn pairs(memory: &Allocator, mut cache: CachedCore, count: u32) -> (Core, u64)
    requires { IsCacheOf memory.now cache }
    ensures { IsCoreOf memory.entry.now result.0 }
{
    let mut refused = 0u64;
    for _i in 0..count {
        match cache.take(memory, 0) {
            Ok(block) => cache.give(memory, block),
            Err(_) => refused = refused.wrapping_add(1),
        }
    }
    (cache.into_core(memory), refused)
}
