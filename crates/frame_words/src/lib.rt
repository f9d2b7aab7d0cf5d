//! The numbers of the frame allocator: faults, sizes, masks, runs of clear bits, and its words.
#![tactic(auto)]

mod entry_word;
mod fault;
mod geometry;
mod lanes;
mod local_word;
mod masks;
mod runs;
mod sizes;
mod tree_word;

pub use entry_word::{entry, entry_free, entry_huge};
pub use fault::{Fault, TakeFault};
pub use geometry::{Geometry, child_of, tree_of};
pub use lanes::{lane, with_lane};
pub use local_word::{local, local_of};
pub use masks::mask;
pub use runs::{find_run, find_words};
pub use sizes::{
    CHILD_FRAMES, CHILD_WORDS, FLAG, HUGE_ORDER, LANE_BITS, LANES, MOST_CHILDREN, MOST_CORES,
    MOST_FRAMES, MOST_TEXT_CORES, TREE_CHILDREN, TREE_FRAMES, WORD_FRAMES, WORD_ORDER, frames_of,
};
pub use tree_word::{tree, tree_free, tree_reserved};
