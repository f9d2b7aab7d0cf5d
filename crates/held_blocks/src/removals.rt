//! Entries that leave.

ghost use Rattle.std.specs.Prelude.{◌≡◌, true, None, IfSome, IfNone, slice_set};
ghost use Rattle.std.specs.Prelude.{vec_len, vec_capacity};
ghost use Rattle.held_blocks.specs.LabelChains.{is_live};
ghost use Rattle.held_blocks.specs.Slots.{StandsAt};
ghost use Rattle.held_blocks.specs.BlockStore.{CountsEntries, entries_of, KeepsReady};
ghost use Rattle.held_blocks.specs.LabelledBlocks.{IsUnder, IsTheBlock, HasNone, TakesFirst};

use crate::block_store::BlockStore;
use crate::label::Label;
use crate::labelled_block::LabelledBlock;
use frame_core::HeldBlock;

impl BlockStore {
    /// Takes out the oldest entry under a label.
    pub(crate) fn take_oldest(&mut self, label: &Label) -> Option<LabelledBlock>
        requires { CountsEntries self.old }
        ensures taken { IfSome result (λ e. TakesFirst (IsUnder label.now) (entries_of self.old) e (entries_of self.new)) }
        ensures none { IfNone result (HasNone (IsUnder label.now) (entries_of self.old)) }
        ensures unchanged { IfNone result (entries_of self.new ≡ entries_of self.old) }
        ensures counts { CountsEntries self.new }
        ensures kept { KeepsReady self.old self.new }
    {
        let slot = self.oldest_slot(label)?;
        Some(self.take_at(slot))
    }

    /// Takes out the entry with exactly this block.
    pub(crate) fn take_exact(&mut self, frame: u32, order: u8) -> Option<LabelledBlock>
        requires { CountsEntries self.old }
        ensures taken { IfSome result (λ e. TakesFirst (IsTheBlock frame order) (entries_of self.old) e (entries_of self.new)) }
        ensures none { IfNone result (HasNone (IsTheBlock frame order) (entries_of self.old)) }
        ensures unchanged { IfNone result (entries_of self.new ≡ entries_of self.old) }
        ensures counts { CountsEntries self.new }
        ensures kept { KeepsReady self.old self.new }
    {
        let slot = self.exact_slot(frame, order)?;
        Some(self.take_at(slot))
    }

    // Takes the entry of a slot out.
    fn take_at(&mut self, slot: usize) -> LabelledBlock
        requires live { is_live self.old.slots.items slot ≡ true }
        requires counts { CountsEntries self.old }
        ensures entry { StandsAt self.old.slots.items slot result }
        ensures slots { self.new.slots.items ≡ slice_set self.old.slots.items slot None }
        ensures counts { CountsEntries self.new }
        ensures kept { KeepsReady self.old self.new }
    {
        let entry = take_slot(&mut self.slots, slot);
        self.pages.leave(entry.block.frame());
        self.live -= 1;
        entry
    }
}

/// Empties a slot that holds an entry.
pub(crate) fn take_slot(slots: &mut Vec<Option<LabelledBlock>>, slot: usize) -> LabelledBlock
    requires { is_live slots.old.items slot ≡ true }
    ensures entry { StandsAt slots.old.items slot result }
    ensures slots { slots.new.items ≡ slice_set slots.old.items slot None }
    ensures len { vec_len slots.new ≡ vec_len slots.old }
    ensures room { vec_capacity slots.new ≡ vec_capacity slots.old }
{
    match slots[slot].take() {
        Some(entry) => entry,
        None => unreachable!(),
    }
}
