//! A core with single frames at hand, which are taken and given without a step of the allocator.
#![tactic(auto)]

mod cached_core;
mod gives;
mod laws;
mod openings;
mod rests;
mod takes;
mod through;

pub use cached_core::{CachedCore, MOST_CACHED};
pub use laws::cached_bounds_are_these;
