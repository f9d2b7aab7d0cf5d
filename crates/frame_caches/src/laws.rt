//! What bounds come to: a law, proved as the contract of a function that does nothing.

ghost use Rattle.frame_caches.specs.BoundNumbers.{CachedTakeInNumbers, CachedGiveInNumbers};

/// The bounds on moves as numbers.
pub fn cached_bounds_are_these()
    ensures take { CachedTakeInNumbers }
    ensures give { CachedGiveInNumbers }
{}
