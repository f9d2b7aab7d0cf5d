//! The sizes that the whole design stands on.

ghost use Rattle.std.specs.Prelude.{◌≡◌, ◌^◌, ◌≤◌};
ghost use Rattle.frame_words.specs.Geometry.{child_frames, huge_order};

/// The frames of a child.
pub const CHILD_FRAMES: u32 = 512;

/// The words that have the bits of a child's frames.
pub const CHILD_WORDS: u32 = 8;

/// The frames that have their bits in one word.
pub const WORD_FRAMES: u32 = 64;

/// The order of a block whose frames have the bits of one whole word.
pub const WORD_ORDER: u8 = 6;

/// The order of a block that is a child, the highest that there is.
pub const HUGE_ORDER: u8 = 9;

/// The children of a tree, of which the last tree may have fewer.
pub const TREE_CHILDREN: u32 = 8;

/// The frames of a whole tree.
pub const TREE_FRAMES: u32 = CHILD_FRAMES * TREE_CHILDREN;

/// The entries that share a word.
pub const LANES: u32 = 4;

/// The bits of an entry.
pub const LANE_BITS: u32 = 16;

/// The most children that memory may have.
pub const MOST_CHILDREN: u32 = 4096;

/// The most frames that memory may have.
pub const MOST_FRAMES: u32 = CHILD_FRAMES * MOST_CHILDREN;

/// The most cores that may use memory.
pub const MOST_CORES: u32 = 1024;

/// The most cores of the program, and of an image's text.
pub const MOST_TEXT_CORES: u32 = 64;

/// The flag of an entry and of a tree word, above the free frames.
pub const FLAG: u64 = 32768;

/// The frames of a block of this order.
#[inline]
pub fn frames_of(order: u8) -> u32
    requires { order ≤ huge_order }
    ensures value { result ≡ 2 ^ order }
    ensures some { 1 ≤ result }
    ensures limit { result ≤ child_frames }
{
    1 << order
}
