//! The list of labelled blocks, oldest first.

ghost use Rattle.std.specs.Prelude.{◌≡◌, ◌<◌, ◌^◌, ◌++◌, ◌∷◌, [], Some, None, length};
ghost use Rattle.std.specs.Prelude.{slice_index_or, IfSome, IfNone, OnOk, OnErr};
ghost use Rattle.std.specs.Bool.{OnTrue, OnFalse};
ghost use Rattle.held_blocks.specs.LabelledBlocks.{IsUnder, IsTheBlock, BeginsAt};
ghost use Rattle.held_blocks.specs.LabelledBlocks.{HasNone, TakesFirst};

use crate::block_store::BlockStore;
use crate::label::{Label, key_of};
use crate::labelled_block::LabelledBlock;
use crate::lookups;
use std::alloc::{AllocError, Global};
use std::marker::Model;

/// Blocks, each under a label, oldest first. `add` asks that no block begins where one of them does.
/// Each call but `at` takes O(log n) steps for n blocks, on the average over all calls, whatever
/// the labels and the frames.
#[derive(Drop)]
pub struct LabelledBlocks {
    store: BlockStore,
    room: Option<Label>,
    alloc: Global,
}

impl Model for LabelledBlocks {
    ghost use Rattle.held_blocks.specs.LabelledBlocks.{LabelledList};

    ghost Value = { LabelledList };

    ghost use Rattle.held_blocks.specs.BlockStore.{entries_of, IsCountedAndReady};

    ghost view = { λ list. record { entries = entries_of list.store; room = list.room } };

    ghost invariant = { λ list. IsCountedAndReady list.store list.room };
}

impl LabelledBlocks {
    /// No blocks. It takes no memory.
    pub fn new(alloc: Global) -> LabelledBlocks
        ensures entries { result.entries ≡ [] }
        ensures room { result.room ≡ None }
    {
        LabelledBlocks {
            store: BlockStore::new(alloc),
            room: None,
            alloc,
        }
    }

    /// How many blocks there are.
    pub fn len(&self) -> usize
        ensures { result ≡ length self.now.entries }
    {
        self.store.live
    }

    /// The entry at a place, 0 the oldest. It walks through the list up to there.
    pub fn at(&self, place: usize) -> &LabelledBlock
        requires { place < length self.now.entries }
        ensures { result.now ≡ slice_index_or self.now.entries place result.now }
    {
        lookups::entry_at(self.store.slots.as_slice(), place)
    }

    /// Whether one of the blocks begins at a frame.
    pub fn begins_at(&self, frame: u32) -> bool
        ensures yes { OnTrue result (¬ HasNone (BeginsAt frame) self.now.entries) }
        ensures no { OnFalse result (HasNone (BeginsAt frame) self.now.entries) }
    {
        self.store.frame_slot(frame).is_some()
    }

    /// Makes room for one more block under a label. No other call takes memory.
    pub fn reserve(&mut self, label: &Label) -> Result<(), AllocError>
        ensures entries { self.new.entries ≡ self.old.entries }
        ensures ok { OnOk result (self.new.room ≡ Some label.now) }
        ensures err { OnErr result (self.new.room ≡ self.old.room) }
    {
        self.store.make_ready(key_of(label), self.alloc)?;
        self.room = Some(label.again());
        Ok(())
    }

    /// Puts a block last, in the room that was made for it.
    pub fn add(&mut self, entry: LabelledBlock)
        requires room { self.old.room ≡ Some entry.label }
        requires low { entry.block.frame < 2 ^ 21 }
        requires apart { HasNone (BeginsAt entry.block.frame) self.old.entries }
        ensures entries { self.new.entries ≡ self.old.entries ++ entry ∷ [] }
        ensures room { self.new.room ≡ None }
    {
        self.store.add_entry(entry);
        self.room = None;
    }

    /// Takes out the oldest block under a label; `None` where there is none.
    pub fn remove_oldest(&mut self, label: &Label) -> Option<LabelledBlock>
        ensures taken { IfSome result (λ e. TakesFirst (IsUnder label.now) self.old.entries e self.new.entries) }
        ensures none { IfNone result (HasNone (IsUnder label.now) self.old.entries) }
        ensures unchanged { IfNone result (self.new.entries ≡ self.old.entries) }
        ensures room { self.new.room ≡ self.old.room }
    {
        self.store.take_oldest(label)
    }

    /// Takes out the block with this first frame and this order; `None` where there is none.
    pub fn remove_exact(&mut self, frame: u32, order: u8) -> Option<LabelledBlock>
        ensures taken { IfSome result (λ e. TakesFirst (IsTheBlock frame order) self.old.entries e self.new.entries) }
        ensures none { IfNone result (HasNone (IsTheBlock frame order) self.old.entries) }
        ensures unchanged { IfNone result (self.new.entries ≡ self.old.entries) }
        ensures room { self.new.room ≡ self.old.room }
    {
        self.store.take_exact(frame, order)
    }
}
