//! A core, and the frames that rest with it.

use core_frames::Core;
use frame_table::Block;

/// How many frames rest with a core at most.
pub const MOST_CACHED: usize = 128;

/// A core with a list of single frames: what was given last is taken first. Each is a block that is out, so
/// it is held as any other one is. The list allocates nothing once it is made.
#[derive(Drop)]
pub struct CachedCore {
    pub(crate) core: Core,
    // the oldest first; there is room for so many
    pub(crate) rest: Vec<Block>,
    pub(crate) size: usize,
}
