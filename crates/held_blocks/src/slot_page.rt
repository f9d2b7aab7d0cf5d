//! The slots of the frames of one child, and how many blocks begin there.

ghost use Rattle.std.specs.Prelude.{◌≡◌, ◌<◌, ◌+◌, ◌^◌, length, IfOk};
ghost use Rattle.frame_words.specs.Geometry.{child_frames};

use frame_words::CHILD_FRAMES;
use std::alloc::{AllocError, Global};

/// The slots of a page: one for each frame of a child.
pub(crate) const PAGE_SLOTS: usize = CHILD_FRAMES as usize;

/// A slot for each frame of a child, and how many blocks begin in it.
#[derive(Drop)]
pub(crate) struct SlotPage {
    pub(crate) slots: Vec<usize>,
    pub(crate) blocks: usize,
    pub ghost sized: { length slots.items ≡ child_frames },
}

impl SlotPage {
    /// A page of no block.
    pub(crate) fn new(alloc: Global) -> Result<SlotPage, AllocError>
        ensures { IfOk result (λ page. page.blocks ≡ 0) }
    {
        let mut slots = Vec::with_capacity(alloc, PAGE_SLOTS)?;
        slots.resize(PAGE_SLOTS, 0)?;
        Ok(SlotPage { slots, blocks: 0 })
    }

    /// The page of one block.
    pub(crate) fn of_one_block(self) -> SlotPage
        ensures { result.blocks ≡ 1 }
    {
        SlotPage {
            slots: self.slots,
            blocks: 1,
        }
    }

    /// Counts one block more.
    pub(crate) fn enter(&mut self)
        requires { self.old.blocks + 1 < 2 ^ 64 }
        ensures blocks { self.new.blocks ≡ self.old.blocks + 1 }
        ensures slots { self.new.slots ≡ self.old.slots }
    {
        self.blocks += 1;
    }

    /// Counts one block less.
    pub(crate) fn leave(&mut self)
        requires { 0 < self.old.blocks }
        ensures blocks { self.new.blocks + 1 ≡ self.old.blocks }
        ensures slots { self.new.slots ≡ self.old.slots }
    {
        self.blocks -= 1;
    }
}
