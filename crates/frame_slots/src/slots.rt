//! The slots of all blocks in one list: that of a block stands where its first frame and its last add
//! up to.

ghost use Rattle.std.specs.Prelude.{◌≡◌, ◌+◌, ◌≤◌, ◌↔◌, IsTrue, IfOk, IfErr, IfSome, IfNone, vec_len, vec_capacity};
ghost use Rattle.std.specs.List.{All};
ghost use Rattle.core_frames.specs.Cores.{IsCoreOf, IsOutOf};
ghost use Rattle.core_frames.specs.Uses.{HasGiven};
ghost use Rattle.frame_slots.specs.SlotLists.{place_for, HasRoomFor, HasListAndCore, IsListOf, IsNextBetween};
ghost use Rattle.frame_slots.specs.SlotLists.{HasSlotAt, HasSlotFor, HasSlotsBeside, AccountsFor};
ghost use Rattle.frame_slots.specs.Slots.{IsSlotFor, IsUsedAsBefore, IsWholeAgain, HasGivenSoMany};

use crate::free_blocks::take_all;
use crate::gaps::Gaps;
use crate::held_back::is_held_back;
use crate::slot::Slot;
use core_frames::{Allocator, Core};
use frame_core::HeldBlock;
use frame_table::Block;
use frame_words::{CHILD_FRAMES, Fault, HUGE_ORDER, frames_of};
use std::alloc::Global;

// The places of the blocks of a child, and one behind them that is no block's.
const CHILD_PLACES: usize = 2 * CHILD_FRAMES as usize;

/// Slots of an allocator's blocks, and the places that have none.
#[derive(Drop)]
pub struct SlotList {
    pub(crate) list: Vec<Slot>,
    pub(crate) gaps: Gaps,
}

// No two blocks have one place.
#[inline(always)]
fn place_of(frame: u32, order: u8) -> usize
    requires { order ≤ 9 }
    ensures { result ≡ place_for frame order }
{
    2 * frame as usize + frames_of(order) as usize - 1
}

impl SlotList {
    /// No slot, and room for those of so many frames.
    fn with_room(alloc: Global, allocator: &Allocator, frames: u32) -> Result<SlotList, Fault>
        ensures room { IfOk result (HasRoomFor frames) }
        ensures slots { IfOk result (IsListOf allocator.now) }
        ensures err { IfErr result (λ e. e ≡ Fault.NoMemory) }
    {
        let _ = allocator;
        let places = 2 * frames as usize;
        let Ok(list) = Vec::with_capacity(alloc, places) else {
            return Err(Fault::NoMemory);
        };
        Ok(SlotList {
            list,
            gaps: Gaps::none(alloc, places),
        })
    }

    /// No slot, and no room for any.
    pub fn none(alloc: Global, allocator: &Allocator) -> SlotList
        ensures room { vec_capacity result.list ≡ 0 }
        ensures slots { IsListOf allocator.now result }
    {
        let _ = allocator;
        SlotList {
            list: Vec::new(alloc),
            gaps: Gaps::none(alloc, 0),
        }
    }

    /// The slots of a fresh memory of so many frames, whose opening holds these ranges back: one for each
    /// block with no frame in a range. Refused for want of memory; also where such a block was not found,
    /// which was never seen.
    pub fn open(
        alloc: Global,
        allocator: &Allocator,
        core: &mut Core,
        frames: u32,
        ranges: &[(u32, u32)],
    ) -> Result<SlotList, Fault>
        requires core { IsCoreOf allocator.now core.old }
        ensures core { IsCoreOf allocator.now core.new }
        ensures lends { IfOk result (λ _. IsUsedAsBefore core.old core.new) }
        ensures room { IfOk result (HasRoomFor frames) }
        ensures slots { IfOk result (IsListOf allocator.now) }
        ensures each { IfOk result (HasSlotsBeside frames ranges.now) }
        ensures err { IfErr result (λ e. e ≡ Fault.NoMemory) }
    {
        let mut slots = SlotList::with_room(alloc, allocator, frames)?;
        let blocks = take_all(alloc, allocator, core)?;
        slots.add_all(allocator, core, blocks)?;
        if !slots.has_each(frames, ranges) {
            return Err(Fault::NoMemory);
        }
        Ok(slots)
    }

    // Has each block of so many frames a slot, but those with a frame in one of the ranges?
    fn has_each(&self, frames: u32, ranges: &[(u32, u32)]) -> bool
        ensures { IsTrue result → HasSlotsBeside frames ranges.now self.now }
    {
        for place in 0..2 * frames as usize {
            if !self.accounts_for(frames, ranges, place) {
                return false;
            }
        }
        true
    }

    #[inline(always)]
    fn accounts_for(&self, frames: u32, ranges: &[(u32, u32)], place: usize) -> bool
        ensures { IsTrue result → AccountsFor frames ranges.now place self.now }
    {
        if self.has_slot(place) {
            return true;
        }
        is_held_back(frames, ranges, place)
    }

    #[inline(always)]
    fn has_slot(&self, place: usize) -> bool
        ensures { IsTrue result ↔ HasSlotAt place self.now }
    {
        place < self.list.len() && !self.gaps.has(place)
    }

    /// The slot of the block of these numbers, if there is such a block.
    #[inline(always)]
    pub fn find(&self, allocator: &Allocator, frame: u32, order: u8) -> Option<&Slot>
        requires { IsListOf allocator.now self.now }
        ensures slot { IfSome result (λ p. IsSlotFor allocator.now frame order p.now) }
        ensures none { IfNone result (¬ HasSlotFor frame order self.now) }
    {
        let _ = allocator;
        if order > HUGE_ORDER || frame % frames_of(order) != 0 {
            return None;
        }
        let place = place_of(frame, order);
        if !self.has_slot(place) {
            return None;
        }
        Some(&self.list[place])
    }

    // The slots of the blocks, of which the first comes last, and of all blocks inside them. The blocks
    // are given back.
    fn add_all(
        &mut self,
        allocator: &Allocator,
        core: &mut Core,
        mut blocks: Vec<Block>,
    ) -> Result<(), Fault>
        requires both { HasListAndCore allocator.now self.old core.old }
        requires blocks { All (IsOutOf allocator.now) blocks.items }
        ensures core { IsCoreOf allocator.now core.new }
        ensures slots { IfOk result (λ _. IsListOf allocator.now self.new) }
        ensures room { vec_capacity self.old.list ≤ vec_capacity self.new.list }
        ensures lends { IfOk result (λ _. HasGivenSoMany (vec_len blocks) core.old core.new) }
        ensures err { IfErr result (λ e. e ≡ Fault.NoMemory) }
    {
        while let Some(held) = blocks.pop() {
            self.skip_to(allocator, &held)?;
            self.add_each(allocator, core, held)?;
        }
        Ok(())
    }

    // The places before those of the block and of the blocks inside it are gaps. At each stands some
    // slot, which no look-up finds.
    fn skip_to(&mut self, allocator: &Allocator, held: &Block) -> Result<(), Fault>
        requires slots { IsListOf allocator.now self.old }
        requires held { IsOutOf allocator.now held.now }
        ensures slots { IfOk result (λ _. IsListOf allocator.now self.new) }
        ensures room { vec_capacity self.old.list ≤ vec_capacity self.new.list }
        ensures err { IfErr result (λ e. e ≡ Fault.NoMemory) }
    {
        for place in self.list.len()..place_of(held.frame(), 0) {
            self.pass_over(allocator, held, place)?;
        }
        Ok(())
    }

    fn pass_over(&mut self, allocator: &Allocator, held: &Block, place: usize) -> Result<(), Fault>
        requires slots { IsListOf allocator.now self.old }
        requires held { IsOutOf allocator.now held.now }
        requires place { place ≡ vec_len self.old.list }
        ensures slots { IfOk result (λ _. IsListOf allocator.now self.new) }
        ensures len { IfOk result (λ _. vec_len self.new.list ≡ vec_len self.old.list + 1) }
        ensures room { vec_capacity self.old.list ≤ vec_capacity self.new.list }
        ensures err { IfErr result (λ e. e ≡ Fault.NoMemory) }
    {
        if place % CHILD_PLACES == CHILD_PLACES - 1 {
            self.add_between(allocator, held, place)
        } else {
            self.add_gap(allocator, held, place)
        }
    }

    // The place is no block's.
    fn add_between(
        &mut self,
        allocator: &Allocator,
        held: &Block,
        place: usize,
    ) -> Result<(), Fault>
        requires slots { IsListOf allocator.now self.old }
        requires held { IsOutOf allocator.now held.now }
        requires place { IsNextBetween place self.old }
        ensures slots { IfOk result (λ _. IsListOf allocator.now self.new) }
        ensures len { IfOk result (λ _. vec_len self.new.list ≡ vec_len self.old.list + 1) }
        ensures room { vec_capacity self.old.list ≤ vec_capacity self.new.list }
        ensures err { IfErr result (λ e. e ≡ Fault.NoMemory) }
    {
        let _ = place;
        let Ok(()) = self.list.push(Slot::of(allocator, held)) else {
            return Err(Fault::NoMemory);
        };
        Ok(())
    }

    fn add_gap(&mut self, allocator: &Allocator, held: &Block, place: usize) -> Result<(), Fault>
        requires slots { IsListOf allocator.now self.old }
        requires held { IsOutOf allocator.now held.now }
        requires place { place ≡ vec_len self.old.list }
        ensures slots { IfOk result (λ _. IsListOf allocator.now self.new) }
        ensures len { IfOk result (λ _. vec_len self.new.list ≡ vec_len self.old.list + 1) }
        ensures room { vec_capacity self.old.list ≤ vec_capacity self.new.list }
        ensures err { IfErr result (λ e. e ≡ Fault.NoMemory) }
    {
        self.gaps.add(place)?;
        let Ok(()) = self.list.push(Slot::of(allocator, held)) else {
            return Err(Fault::NoMemory);
        };
        Ok(())
    }

    // The slots of the block and of all blocks inside it, in the order of their places. It is given back
    // in blocks below order 9, the first first: the core stays with the last tree, next to which no other
    // begins.
    fn add_each(&mut self, allocator: &Allocator, core: &mut Core, held: Block) -> Result<(), Fault>
        requires both { HasListAndCore allocator.now self.old core.old }
        requires held { IsOutOf allocator.now held }
        ensures core { IsCoreOf allocator.now core.new }
        ensures slots { IfOk result (λ _. IsListOf allocator.now self.new) }
        ensures room { vec_capacity self.old.list ≤ vec_capacity self.new.list }
        ensures given { IfOk result (λ _. HasGiven core.old core.new) }
        ensures err { IfErr result (λ e. e ≡ Fault.NoMemory) }
    {
        if held.order() < HUGE_ORDER {
            let held = self.add_inside(allocator, core, held)?;
            allocator.give(core, held);
            return Ok(());
        }
        self.add_huge(allocator, core, held)
    }

    // The same for a block of order 9, which no halves make up again.
    fn add_huge(&mut self, allocator: &Allocator, core: &mut Core, held: Block) -> Result<(), Fault>
        requires both { HasListAndCore allocator.now self.old core.old }
        requires held { IsOutOf allocator.now held × (held.order ≡ 9) }
        ensures core { IsCoreOf allocator.now core.new }
        ensures slots { IfOk result (λ _. IsListOf allocator.now self.new) }
        ensures room { vec_capacity self.old.list ≤ vec_capacity self.new.list }
        ensures given { IfOk result (λ _. HasGiven core.old core.new) }
        ensures err { IfErr result (λ e. e ≡ Fault.NoMemory) }
    {
        let slot = Slot::of(allocator, &held);
        let (frame, order) = (held.frame(), held.order());
        let Ok((lower, upper)) = allocator.split(core, held) else {
            unreachable!()
        };
        let lower = self.add_inside(allocator, core, lower)?;
        self.add(allocator, slot, frame, order)?;
        let upper = self.add_inside(allocator, core, upper)?;
        allocator.give(core, lower);
        allocator.give(core, upper);
        Ok(())
    }

    // The slots of a block below order 9 and of all blocks inside it, in the order of their places. Each is
    // made like a right that is there: the block is split, and its halves are joined again.
    fn add_inside(
        &mut self,
        allocator: &Allocator,
        core: &mut Core,
        held: Block,
    ) -> Result<Block, Fault>
        requires both { HasListAndCore allocator.now self.old core.old }
        requires held { IsOutOf allocator.now held × (held.order ≤ 8) }
        ensures core { IsCoreOf allocator.now core.new }
        ensures slots { IfOk result (λ _. IsListOf allocator.now self.new) }
        ensures room { vec_capacity self.old.list ≤ vec_capacity self.new.list }
        ensures whole { IfOk result (IsWholeAgain allocator.now held core.old core.new) }
        ensures err { IfErr result (λ e. e ≡ Fault.NoMemory) }
    {
        let slot = Slot::of(allocator, &held);
        let (frame, order) = (held.frame(), held.order());
        match allocator.split(core, held) {
            Ok((lower, upper)) => {
                let lower = self.add_inside(allocator, core, lower)?;
                self.add(allocator, slot, frame, order)?;
                let upper = self.add_inside(allocator, core, upper)?;
                let Ok(whole) = allocator.join(core, lower, upper) else {
                    unreachable!()
                };
                Ok(whole)
            }
            Err(single) => {
                self.add(allocator, slot, frame, order)?;
                Ok(single)
            }
        }
    }

    // The slot of the block, where its place is the next one; else it would have none.
    fn add(&mut self, allocator: &Allocator, slot: Slot, frame: u32, order: u8) -> Result<(), Fault>
        requires slots { IsListOf allocator.now self.old }
        requires slot { IsSlotFor allocator.now frame order slot }
        ensures slots { IfOk result (λ _. IsListOf allocator.now self.new) }
        ensures room { vec_capacity self.old.list ≤ vec_capacity self.new.list }
        ensures err { IfErr result (λ e. e ≡ Fault.NoMemory) }
    {
        let _ = allocator;
        if place_of(frame, order) != self.list.len() {
            return Ok(());
        }
        let Ok(()) = self.list.push(slot) else {
            return Err(Fault::NoMemory);
        };
        Ok(())
    }
}
