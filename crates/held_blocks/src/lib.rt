//! Blocks that a core holds: their labels, and the list of them, oldest first.
#![tactic(auto)]

mod block_store;
mod compaction;
mod label;
mod label_chains;
mod labelled_block;
mod labelled_blocks;
mod lookups;
mod removals;
mod slot_page;
mod slot_pages;

pub use label::Label;
pub use labelled_block::LabelledBlock;
pub use labelled_blocks::LabelledBlocks;
