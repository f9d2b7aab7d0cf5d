//! The entries of a list of labelled blocks: in slots, in order of arrival. A removal empties a
//! slot. A chain leads to the oldest entry under a label, a table to the entry of a frame.

ghost use Rattle.held_blocks.specs.Slots.{FindsEntries};

use crate::label::key_of;
use crate::label_chains::LabelChains;
use crate::labelled_block::LabelledBlock;
use crate::slot_pages::SlotPages;
use frame_core::HeldBlock;
use std::alloc::{AllocError, Global};

/// So many empty slots, or labels of no entry, are let be.
const FEW: usize = 32;

/// The slots, the ways to them, and how many hold an entry.
#[derive(Drop)]
pub(crate) struct BlockStore {
    pub(crate) slots: Vec<Option<LabelledBlock>>,
    pub(crate) chains: LabelChains,
    pub(crate) pages: SlotPages,
    pub(crate) live: usize,
    pub ghost finds: { FindsEntries slots.items chains pages live },
}

impl BlockStore {
    ghost use Rattle.std.specs.Prelude.{◌≡◌, ◌<◌, ◌^◌, ◌++◌, ◌∷◌, [], OnOk, OnErr};
    ghost use Rattle.held_blocks.specs.Label.{packed};
    ghost use Rattle.held_blocks.specs.LabelChains.{Knows};
    ghost use Rattle.std.specs.Prelude.{ℕ, ◌+◌};
    ghost use Rattle.held_blocks.specs.SlotPages.{HasPage, HasSpare, counted_at, in_one_child};
    ghost use Rattle.held_blocks.specs.BlockStore.{entries_of, HasRoom, IsReadyFor, KeepsReady};
    ghost use Rattle.held_blocks.specs.BlockStore.{CountsEntries, UsesRoomOfOne};
    ghost use Rattle.held_blocks.specs.LabelledBlocks.{BeginsAt, HasNone};

    /// No slot, and no memory.
    pub(crate) fn new(alloc: Global) -> BlockStore
        ensures entries { entries_of result ≡ [] }
        ensures counts { CountsEntries result }
    {
        BlockStore {
            slots: Vec::new(alloc),
            chains: LabelChains::new(alloc),
            pages: SlotPages::new(alloc),
            live: 0,
        }
    }

    /// Makes ready for one more entry under the label with this number.
    pub(crate) fn make_ready(&mut self, key: u128, alloc: Global) -> Result<(), AllocError>
        ensures entries { entries_of self.new ≡ entries_of self.old }
        ensures counts { CountsEntries self.old → CountsEntries self.new }
        ensures ready { OnOk result (IsReadyFor self.new key) }
        ensures kept { OnErr result (KeepsReady self.old self.new) }
    {
        self.make_spare()?;
        if self.is_sparse() {
            self.compact(key, alloc)
        } else {
            self.make_room(key)
        }
    }

    // Makes a page that no child has, unless there is one.
    fn make_spare(&mut self) -> Result<(), AllocError>
        ensures slots { self.new.slots ≡ self.old.slots }
        ensures numbers { (f : ℕ) → counted_at self.new.pages f ≡ counted_at self.old.pages f }
        ensures spare { OnOk result (HasSpare self.new.pages) }
        ensures kept { KeepsReady self.old self.new }
    {
        self.pages.make_page()
    }

    // Whether more than half of the slots are empty, or of the labels have no entry.
    fn is_sparse(&self) -> bool {
        let most = self.live + FEW;
        self.slots.len() / 2 > most || self.chains.ends.len() / 2 > most
    }

    // Makes room for one more entry under the label with this number.
    fn make_room(&mut self, key: u128) -> Result<(), AllocError>
        requires { HasSpare self.old.pages }
        ensures slots { self.new.slots.items ≡ self.old.slots.items }
        ensures pages { self.new.pages ≡ self.old.pages }
        ensures ready { OnOk result (IsReadyFor self.new key) }
        ensures kept { KeepsReady self.old self.new }
    {
        self.slots.reserve(1)?;
        self.chains.make_ready(1, key)
    }

    /// Puts an entry last, for which the store was made ready.
    pub(crate) fn add_entry(&mut self, entry: LabelledBlock)
        requires ready { IsReadyFor self.old (packed entry.label) }
        requires low { entry.block.frame < 2 ^ 21 }
        requires apart { HasNone (BeginsAt entry.block.frame) (entries_of self.old) }
        requires counts { CountsEntries self.old }
        ensures entries { entries_of self.new ≡ entries_of self.old ++ entry ∷ [] }
        ensures counts { CountsEntries self.new }
    {
        self.enter(entry.block.frame());
        self.put_last(entry);
    }

    // Counts a block that begins at a frame, whose child gets a page if it has none.
    fn enter(&mut self, frame: u32)
        requires spare { HasSpare self.old.pages }
        requires low { frame < 2 ^ 21 }
        requires counts { CountsEntries self.old }
        ensures slots { self.new.slots ≡ self.old.slots }
        ensures chains { self.new.chains ≡ self.old.chains }
        ensures page { HasPage self.new.pages frame }
        ensures numbers { (f : ℕ) → counted_at self.new.pages f ≡ counted_at self.old.pages f + in_one_child frame f }
    {
        self.pages.enter(frame);
    }

    /// Puts an entry last, where there is room and the child of its frame has a page.
    pub(crate) fn put_last(&mut self, entry: LabelledBlock)
        requires room { HasRoom self.old 1 }
        requires knows { Knows self.old.chains (packed entry.label) }
        requires page { HasPage self.old.pages entry.block.frame }
        requires apart { HasNone (BeginsAt entry.block.frame) (entries_of self.old) }
        ensures entries { entries_of self.new ≡ entries_of self.old ++ entry ∷ [] }
        ensures room { UsesRoomOfOne self.old self.new }
    {
        let key = key_of(&entry.label);
        self.chains.put_last(self.slots.as_slice(), key);
        self.pages.put_slot(entry.block.frame(), self.slots.len());
        self.slots.push_reserved(Some(entry));
        self.live += 1;
    }
}
