//! Where the entries stand.

ghost use Rattle.std.specs.Prelude.{◌≡◌, ◌<◌, length, IfSome, IfNone, slice_index_or};
ghost use Rattle.held_blocks.specs.Slots.{held, IsFirstAt, HoldsAt};
ghost use Rattle.held_blocks.specs.BlockStore.{entries_of, KeepsReady};
ghost use Rattle.held_blocks.specs.LabelledBlocks.{IsUnder, IsTheBlock, BeginsAt, HasNone};

use crate::block_store::BlockStore;
use crate::label::{Label, key_of};
use crate::labelled_block::LabelledBlock;
use frame_core::HeldBlock;

impl BlockStore {
    /// The slot of the oldest entry under a label.
    pub(crate) fn oldest_slot(&mut self, label: &Label) -> Option<usize>
        ensures slots { self.new.slots ≡ self.old.slots }
        ensures none { IfNone result (HasNone (IsUnder label.now) (entries_of self.old)) }
        ensures found { IfSome result (IsFirstAt (IsUnder label.now) self.old.slots.items) }
        ensures pages { self.new.pages ≡ self.old.pages }
        ensures kept { KeepsReady self.old self.new }
    {
        self.chains.first_live(self.slots.as_slice(), key_of(label))
    }

    /// The slot of the entry with exactly this block.
    pub(crate) fn exact_slot(&self, frame: u32, order: u8) -> Option<usize>
        ensures none { IfNone result (HasNone (IsTheBlock frame order) (entries_of self.now)) }
        ensures found { IfSome result (IsFirstAt (IsTheBlock frame order) self.now.slots.items) }
    {
        let slot = self.frame_slot(frame)?;
        let entry = self.slots[slot].as_ref()?;
        if entry.block.order() == order {
            Some(slot)
        } else {
            None
        }
    }

    /// The slot of the entry that begins at a frame.
    pub(crate) fn frame_slot(&self, frame: u32) -> Option<usize>
        ensures none { IfNone result (HasNone (BeginsAt frame) (entries_of self.now)) }
        ensures found { IfSome result (HoldsAt (BeginsAt frame) self.now.slots.items) }
    {
        let slot = self.pages.slot_of(frame)?;
        if slot >= self.slots.len() {
            return None;
        }
        let entry = self.slots[slot].as_ref()?;
        if entry.block.frame() == frame {
            Some(slot)
        } else {
            None
        }
    }
}

/// The entry at a place among those that the slots hold.
pub(crate) fn entry_at(slots: &[Option<LabelledBlock>], place: usize) -> &LabelledBlock
    requires { place < length (held slots.now) }
    ensures { result.now ≡ slice_index_or (held slots.now) place result.now }
{
    let mut seen = 0;
    for slot in slots {
        if let Some(entry) = slot {
            if seen == place {
                return entry;
            }
            seen += 1;
        }
    }
    unreachable!()
}
