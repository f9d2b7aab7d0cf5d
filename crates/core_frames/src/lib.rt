//! Takes, gives and splits of a whole memory over any moves; an allocator that threads share, one for
//! one thread, and desks.
#![tactic(auto)]

mod free_counts;
mod gives;
mod joins;
mod laws;
mod looks;
mod places;
mod plain;
mod ranges;
mod search;
mod shared;
mod splits;
mod takes;

pub use free_counts::{FreeCounts, free_counts_by};
pub use gives::give_by;
pub use held_blocks::{Label, LabelledBlock, LabelledBlocks};
pub use joins::join_by;
pub use laws::{
    bounds_are_these, gives_free_their_block, searches_miss_what_is_withheld,
    worked_searches_miss_a_block, worked_views_withhold, wrong_answers_are_not_told,
    wrong_halves_and_counts_are_not_told, wrong_refusals_are_not_told,
    wrong_refused_takes_are_not_told,
};
pub use looks::is_free_by;
pub use places::take_at_by;
pub use plain::PlainAllocator;
pub use ranges::MOST_RANGES;
pub use search::{Habit, Start};
pub use shared::{Allocator, CloseFault, Core, Desk, Survivors};
pub use splits::split_by;
pub use takes::take_by;
