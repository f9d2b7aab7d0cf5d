//! The move of all entries into new slots, none of them empty.

ghost use Rattle.std.specs.Prelude.{◌≡◌, ◌+◌, [], ℕ, length, IfOk, OnOk, OnErr};
ghost use Rattle.held_blocks.specs.LabelChains.{Knows};
ghost use Rattle.held_blocks.specs.SlotPages.{HasSpare, counted_at};
ghost use Rattle.held_blocks.specs.Slots.{held, AreChainsFor, CanMove};
ghost use Rattle.held_blocks.specs.BlockStore.{entries_of, HasRoom, IsReadyFor};

use crate::block_store::BlockStore;
use crate::label_chains::LabelChains;
use crate::labelled_block::LabelledBlock;
use crate::removals::take_slot;
use crate::slot_pages::SlotPages;
use std::alloc::{AllocError, Global};
use std::mem;

impl BlockStore {
    /// Moves the entries into new slots, none of them empty, with chains for their labels alone.
    pub(crate) fn compact(&mut self, key: u128, alloc: Global) -> Result<(), AllocError>
        requires { HasSpare self.old.pages }
        ensures entries { entries_of self.new ≡ entries_of self.old }
        ensures numbers { (f : ℕ) → counted_at self.new.pages f ≡ counted_at self.old.pages f }
        ensures ready { OnOk result (IsReadyFor self.new key) }
        ensures kept { OnErr result (self.new ≡ self.old) }
    {
        let chains = self.needed_chains(key, alloc)?;
        let slots = Vec::with_capacity(alloc, self.live + 1)?;
        let fresh = BlockStore {
            slots,
            chains,
            pages: SlotPages::new(alloc),
            live: 0,
        };
        let BlockStore {
            slots,
            chains: _,
            pages,
            live: _,
        } = mem::replace(self, fresh);
        self.pages = pages;
        self.move_all(slots);
        Ok(())
    }

    // Chains through no place, for the labels of all entries and one more.
    fn needed_chains(&self, key: u128, alloc: Global) -> Result<LabelChains, AllocError>
        ensures { IfOk result (AreChainsFor self.now.slots.items (self.now.live + 1) key) }
    {
        let mut chains = LabelChains::new(alloc);
        chains.make_ready(self.live + 1, key)?;
        for slot in 0..self.slots.len() {
            if self.slots[slot].is_some() {
                chains.know(self.chains.keys[slot])?;
            }
        }
        Ok(chains)
    }

    // Puts the entries of these slots last, in order.
    fn move_all(&mut self, slots: Vec<Option<LabelledBlock>>)
        requires none { entries_of self.old ≡ [] }
        requires room { HasRoom self.old (length (held slots.items) + 1) }
        requires spare { HasSpare self.old.pages }
        requires can { CanMove slots.items self.old.chains self.old.pages }
        ensures entries { entries_of self.new ≡ held slots.items }
        ensures numbers { (f : ℕ) → counted_at self.new.pages f ≡ counted_at self.old.pages f }
        ensures ready { (q : ℕ) → Knows self.old.chains q → IsReadyFor self.new q }
    {
        let mut slots = slots;
        for slot in 0..slots.len() {
            if slots[slot].is_some() {
                self.put_last(take_slot(&mut slots, slot));
            }
        }
    }
}
