//! What every view of a memory names.

use std::collections::LinkedList;

/// The sizes of a memory, and the frames that its opening held back.
// No value of it is made: it stands in contracts alone.
pub struct Key {
    /// 1 to 4,096.
    pub children: u32,
    /// 1 to 1,024.
    pub cores: u32,
    /// Frames that exist: all of the last child, or a part of it.
    pub frames: u32,
    /// Start and count of each range of frames that is never given out.
    pub ranges: LinkedList<(u32, u32)>,
    /// Whether nothing was held at the opening but what the key itself names.
    pub sealed: bool,
}
