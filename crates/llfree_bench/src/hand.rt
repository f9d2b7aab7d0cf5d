//! What a thread works with.

use core_frames::Core;
use frame_table::Block;

/// A core, the blocks that it holds, and a random number.
#[derive(Drop)]
pub struct Hand {
    pub core: Core,
    pub blocks: Vec<Block>,
    pub random: u64,
    /// How many blocks the list has room for.
    pub most: usize,
    /// The takes that were refused since the phase began.
    pub refused: u64,
}
