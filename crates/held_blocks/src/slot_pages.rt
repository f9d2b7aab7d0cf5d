//! For each frame a slot: a page of 512 slots for each child in which a block begins.
//! Nothing is ever wiped out: its owner knows which frames mean something.

ghost use Rattle.std.specs.Prelude.{◌≡◌, ◌≤◌, ◌+◌, ℕ, length, OnOk};
ghost use Rattle.frame_words.specs.Geometry.{child_frames, most_children};
ghost use Rattle.held_blocks.specs.Pages.{EachIsNeeded, page_in};

use crate::slot_page::{PAGE_SLOTS, SlotPage};
use frame_words::MOST_CHILDREN;
use std::alloc::{AllocError, Global};

/// The most pages: one for each child of a memory.
const MOST_PAGES: usize = MOST_CHILDREN as usize;

/// So many pages that no child has are kept, so that a core that takes and gives in turn makes none.
const FEW_PAGES: usize = 32;

/// The page of each child, and pages that no child has.
#[derive(Drop)]
pub(crate) struct SlotPages {
    pages: Vec<Option<SlotPage>>,
    spares: Vec<SlotPage>,
    alloc: Global,
    pub ghost needed: { EachIsNeeded pages.items },
}

impl SlotPages {
    ghost use Rattle.std.specs.Prelude.{◌≢◌, ◌<◌, ◌^◌, IfSome, IfNone, None, ◌/◌};
    ghost use Rattle.held_blocks.specs.SlotPages.{HasPage, HasSpare, slot_at};
    ghost use Rattle.held_blocks.specs.SlotPages.{KeepsPages, KeepsSlots};
    ghost use Rattle.held_blocks.specs.SlotPages.{counted_at, in_one_child};

    /// No page, and no memory.
    pub(crate) fn new(alloc: Global) -> SlotPages
        ensures { (f : ℕ) → counted_at result f ≡ 0 }
    {
        SlotPages {
            pages: Vec::new(alloc),
            spares: Vec::new(alloc),
            alloc,
        }
    }

    /// Makes a page that no child has, unless there is one.
    pub(crate) fn make_page(&mut self) -> Result<(), AllocError>
        ensures made { OnOk result (HasSpare self.new) }
        ensures slots { KeepsSlots self.old self.new }
        ensures pages { KeepsPages self.old self.new }
    {
        make_directory(&mut self.pages)?;
        if self.spares.is_empty() {
            self.spares.reserve(FEW_PAGES)?;
            self.spares.push_reserved(SlotPage::new(self.alloc)?);
        }
        Ok(())
    }

    /// Counts a block that begins at a frame, whose child gets a page if it has none.
    pub(crate) fn enter(&mut self, frame: u32)
        requires spare { HasSpare self.old }
        requires low { frame < 2 ^ 21 }
        requires few { counted_at self.old frame + 1 < 2 ^ 64 }
        ensures numbers { (f : ℕ) → counted_at self.new f ≡ counted_at self.old f + in_one_child frame f }
        ensures slots { KeepsSlots self.old self.new }
    {
        let child = frame as usize / PAGE_SLOTS;
        if self.pages[child].is_none() {
            self.give_page(frame);
            return;
        }
        match &mut self.pages[child] {
            Some(page) => page.enter(),
            None => unreachable!(),
        }
    }

    // Gives the child of a frame, which has no page, one of one block.
    fn give_page(&mut self, frame: u32)
        requires spare { HasSpare self.old }
        requires low { frame < 2 ^ 21 }
        requires none { page_in self.old.pages.items (frame / child_frames) ≡ None }
        ensures numbers { (f : ℕ) → counted_at self.new f ≡ counted_at self.old f + in_one_child frame f }
        ensures slots { KeepsSlots self.old self.new }
    {
        let Some(page) = self.spares.pop() else {
            unreachable!();
        };
        self.pages[frame as usize / PAGE_SLOTS] = Some(page.of_one_block());
    }

    /// Counts no more a block that begins at a frame. The last block of a child takes its page with it.
    pub(crate) fn leave(&mut self, frame: u32)
        requires { HasPage self.old frame }
        ensures numbers { (f : ℕ) → counted_at self.new f + in_one_child frame f ≡ counted_at self.old f }
        ensures slots { (f : ℕ) → HasPage self.new f → slot_at self.new f ≡ slot_at self.old f }
        ensures spare { HasSpare self.old → HasSpare self.new }
    {
        let child = frame as usize / PAGE_SLOTS;
        let blocks = match &self.pages[child] {
            Some(page) => page.blocks,
            None => unreachable!(),
        };
        if blocks == 1 {
            self.let_go(frame);
            return;
        }
        match &mut self.pages[child] {
            Some(page) => page.leave(),
            None => unreachable!(),
        }
    }

    // Lets the page of the child of a frame go, with the one block that it counts.
    fn let_go(&mut self, frame: u32)
        requires { counted_at self.old frame ≡ 1 }
        ensures numbers { (f : ℕ) → counted_at self.new f + in_one_child frame f ≡ counted_at self.old f }
        ensures slots { (f : ℕ) → HasPage self.new f → slot_at self.new f ≡ slot_at self.old f }
        ensures spare { HasSpare self.old → HasSpare self.new }
    {
        let Some(page) = self.pages[frame as usize / PAGE_SLOTS].take() else {
            unreachable!();
        };
        if self.spares.len() < FEW_PAGES {
            let _ = self.spares.push(page);
        }
    }

    /// What stands at a frame, if its child has a page.
    pub(crate) fn slot_of(&self, frame: u32) -> Option<usize>
        ensures slot { IfSome result (λ slot. slot ≡ slot_at self.now frame) }
        ensures none { IfNone result (¬ HasPage self.now frame) }
    {
        let child = frame as usize / PAGE_SLOTS;
        if child >= self.pages.len() {
            return None;
        }
        let page = self.pages[child].as_ref()?;
        Some(page.slots[frame as usize % PAGE_SLOTS])
    }

    /// Writes a slot at a frame, whose child has a page.
    pub(crate) fn put_slot(&mut self, frame: u32, slot: usize)
        requires { HasPage self.old frame }
        ensures here { slot_at self.new frame ≡ slot }
        ensures others { (f : ℕ) → f ≢ frame → HasPage self.old f →
            slot_at self.new f ≡ slot_at self.old f }
        ensures pages { KeepsPages self.old self.new }
    {
        match &mut self.pages[frame as usize / PAGE_SLOTS] {
            Some(page) => page.slots[frame as usize % PAGE_SLOTS] = slot,
            None => unreachable!(),
        }
    }
}

// Makes the directory, in which no child has a page, unless it is there.
fn make_directory(pages: &mut Vec<Option<SlotPage>>) -> Result<(), AllocError>
    ensures same { (c : ℕ) → page_in pages.new.items c ≡ page_in pages.old.items c }
    ensures made { OnOk result (most_children ≤ length pages.new.items) }
    ensures kept { length pages.old.items ≤ length pages.new.items }
{
    if pages.len() < MOST_PAGES {
        pages.reserve(MOST_PAGES)?;
    }
    while pages.len() < MOST_PAGES {
        pages.push(None)?;
    }
    Ok(())
}
