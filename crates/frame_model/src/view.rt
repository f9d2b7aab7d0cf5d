//! What one seat has in flight.

use super::block::FrameBlock;
use super::key::Key;
use std::collections::LinkedList;

/// A count of frames in one place: a child or a tree.
#[derive(Clone, Copy, Debug, PartialEq, Eq)]
pub struct Amount {
    pub place: u32,
    pub count: u32,
}

/// What one seat has in flight: the part of the accounting that only its own steps change.
// No value of it is made: it stands in contracts alone.
pub struct View {
    /// The memory that it is about; none once it is spent.
    pub about: Option<Key>,
    /// How many cores it stands for. 0: it holds a block that was handed out, or the ground.
    pub share: u64,
    /// Blocks that it handed out, less those that it took in.
    pub lent: i64,
    /// Whether it holds what was held before the opening.
    pub is_ground: bool,
    /// Frames that it took off the count of a tree.
    pub paid: Option<Amount>,
    /// Frames that it took off the entry of a child.
    pub charged: Option<Amount>,
    /// The tree that it has reserved and not yet put into a local word.
    pub reserving: Option<u32>,
    /// The blocks in flight, or the one block that was handed out.
    pub own: LinkedList<FrameBlock>,
    /// The blocks that it keeps for its user.
    pub kept: LinkedList<FrameBlock>,
    /// The bit words of own huge frames that it has filled.
    pub filled: LinkedList<u32>,
    /// Steps that it made.
    pub moves: u64,
    /// Exchanges that it lost.
    pub lost: u64,
}

/// What a word was found to be, or nothing once it was changed.
pub struct Sighting {
    pub place: u32,
    pub found: Option<u64>,
}

/// A view, and beside it what its seat has read.
// No value of it is made: it stands in contracts alone.
pub struct Eye {
    pub view: View,
    /// The latest first.
    pub read: LinkedList<Sighting>,
}
