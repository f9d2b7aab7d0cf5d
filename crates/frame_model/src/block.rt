//! Blocks: as plain data, and as values that are taken and given.

ghost use Rattle.std.specs.Prelude.{◌≡◌};

use std::marker::Model;

/// A block: `2^order` page frames from `frame` on.
#[derive(Clone, Copy, Debug, PartialEq, Eq)]
pub struct FrameBlock {
    /// The number of its first frame, a multiple of `2^order`.
    pub frame: u32,
    /// 0 to 9.
    pub order: u8,
}

/// A value that stands for a block that was taken.
pub trait HeldBlock {
    ghost use Rattle.frame_model.specs.declared.block.FrameBlock.{FrameBlock};

    ghost block_of: { Self → FrameBlock };

    /// The number of the block's first frame.
    fn frame(&self) -> u32
        ensures { result ≡ (block_of self.now).frame };

    /// The block has `2^order` frames.
    fn order(&self) -> u8
        ensures { result ≡ (block_of self.now).order };
}

/// A block of an allocator for one thread. It can't be copied, so it is given at most once; where
/// it is dropped instead, its frames stay held.
#[derive(Debug, Drop)]
pub struct PlainBlock {
    frame: u32,
    order: u8,
}

impl Model for PlainBlock {
    ghost use Rattle.frame_model.specs.declared.block.FrameBlock.{FrameBlock};

    ghost Value = { FrameBlock };

    ghost view = { λ block. record { frame = block.frame; order = block.order } };
}

impl PlainBlock {
    ghost use Rattle.frame_model.specs.Block.{block};

    /// The block of these two numbers. No right to its frames comes with it: each call that takes
    /// a block asks that the block is out.
    pub fn of(frame: u32, order: u8) -> PlainBlock
        ensures { result ≡ block frame order }
    {
        PlainBlock { frame, order }
    }
}

impl HeldBlock for PlainBlock {
    ghost block_of = { λ block. block };

    fn frame(&self) -> u32 {
        self.frame
    }

    fn order(&self) -> u8 {
        self.order
    }
}
