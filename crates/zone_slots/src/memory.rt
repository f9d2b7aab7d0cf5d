//! What all cores share: the zones of a memory, and the slots of their blocks.

ghost use Rattle.std.specs.Prelude.{◌≡◌, ◌+◌, ◌<◌, IfOk, IfErr, IfSome};
ghost use Rattle.frame_zones.specs.FreeCounts.{frames_among};
ghost use Rattle.frame_zones.specs.Zones.{zone_count, first_frame_of, first_frame_in, IsOutOfItsZone};
ghost use Rattle.zone_slots.specs.Layouts.{most_numbers};
ghost use Rattle.frame_zones.specs.Frames.{IsFrameIn};
ghost use Rattle.zone_slots.specs.Memories.{number_for, AreSlotted, HaveNumbers, IsFirstOf, IsOutOfZone};
ghost use Rattle.zone_slots.specs.Uses.{IsReceiptOf};

use crate::first_zone::FirstZone;
use crate::zone_receipt::ZoneReceipt;
use frame_core::HeldBlock;
use frame_slots::{Receipt, SlotList};
use frame_table::Block;
use frame_zones::{Row, ZoneBlock, Zones};
use std::alloc::Global;

/// What all cores share. Its frames are numbered by `u32` over all zones.
#[derive(Drop)]
pub struct Memory {
    pub(crate) zones: Zones,
    // The slots of each zone's blocks.
    pub(crate) slots: Row<SlotList>,
    // The frames of all zones.
    pub(crate) frames: u32,
    // Of the blocks that were laid down before any core was handed out, a list for each zone.
    pub(crate) reclaimed: Vec<Vec<Receipt>>,
    // What is read at each call shares no cache line with what comes behind it in the heap.
    pub(crate) apart: [u64; 8],
    pub(crate) ghost slotted: { AreSlotted zones slots.items },
    pub(crate) ghost numbered: { HaveNumbers zones },
    pub(crate) ghost sized: { frames ≡ frames_among zones },
}

impl Memory {
    /// These zones, with these slots, of which none was used yet.
    pub(crate) fn of(alloc: Global, zones: Zones, slots: Vec<SlotList>) -> Memory
        requires slots { AreSlotted zones slots.items }
        requires numbered { HaveNumbers zones }
        ensures zones { result.zones ≡ zones }
        ensures slots { result.slots.items ≡ slots.items }
    {
        let frames = zones.frames() as u32;
        Memory {
            zones,
            slots: Row::of(slots),
            frames,
            reclaimed: Vec::new(alloc),
            apart: [0; 8],
        }
    }

    /// What each core knows of the first zone.
    pub(crate) fn first_zone(&self) -> FirstZone
        requires { 0 < zone_count self.now.zones }
        ensures { IsFirstOf self.now.zones result }
    {
        FirstZone {
            first: self.zones.firsts[0] as u32,
            frames: self.zones.frames[0],
        }
    }

    /// The number among those of all zones of the first frame of a block that was laid down.
    #[inline(always)]
    pub(crate) fn number_of(&self, known: FirstZone, receipt: &ZoneReceipt) -> u32
        requires known { IsFirstOf self.now.zones known }
        requires zone { receipt.now.zone < zone_count self.now.zones }
        requires fits { number_for self.now.zones receipt.now < most_numbers }
        ensures { result ≡ number_for self.now.zones receipt.now }
    {
        self.number_at(known, receipt.zone, receipt.receipt.frame())
    }

    /// The number among those of all zones of this frame of the zone.
    #[inline(always)]
    pub(crate) fn number_at(&self, known: FirstZone, zone: u32, frame: u32) -> u32
        requires known { IsFirstOf self.now.zones known }
        requires zone { zone < zone_count self.now.zones }
        requires fits { first_frame_of self.now.zones zone + frame < most_numbers }
        ensures { result ≡ first_frame_of self.now.zones zone + frame }
    {
        if zone == 0 {
            return known.first + frame;
        }
        self.zones.firsts[zone as usize] as u32 + frame
    }

    /// The block of these numbers, if it rests at its slot. Its zone is looked for at the first one, and then
    /// at a hinted one.
    #[inline(always)]
    pub(crate) fn fetch(
        &self,
        known: FirstZone,
        hint: u32,
        frame: u32,
        order: u8,
    ) -> Option<ZoneBlock>
        requires { IsFirstOf self.now.zones known }
        ensures out { IfSome result (IsOutOfItsZone self.now.zones) }
        ensures frame { IfSome result (λ b. first_frame_in self.now.zones b ≡ frame) }
        ensures order { IfSome result (λ b. b.block.order ≡ order) }
    {
        let Some(local) = known.number_of(frame) else {
            return self.fetch_beyond(hint, frame, order);
        };
        let block = self.fetch_in(0, local, order)?;
        Some(ZoneBlock { zone: 0, block })
    }

    // The same where the first zone does not have the frame: that look-up answers two numbers through memory.
    #[inline(never)]
    fn fetch_beyond(&self, hint: u32, frame: u32, order: u8) -> Option<ZoneBlock>
        ensures out { IfSome result (IsOutOfItsZone self.now.zones) }
        ensures frame { IfSome result (λ b. first_frame_in self.now.zones b ≡ frame) }
        ensures order { IfSome result (λ b. b.block.order ≡ order) }
    {
        let (zone, local) = self.zones.zone_of(hint, u64::from(frame))?;
        let block = self.fetch_in(zone, local, order)?;
        Some(ZoneBlock { zone, block })
    }

    /// The zone that has the frame of this number, and the frame's number there.
    #[inline(always)]
    pub(crate) fn zone_of(&self, known: FirstZone, hint: u32, frame: u32) -> Option<(u32, u32)>
        requires { IsFirstOf self.now.zones known }
        ensures { IfSome result (λ r. IsFrameIn self.now.zones frame r.0 r.1) }
    {
        if let Some(local) = known.number_of(frame) {
            return Some((0, local));
        }
        self.zones.zone_of(hint, u64::from(frame))
    }

    /// The block of this order at this frame of the zone, counted from the zone's first one, if it rests at
    /// its slot.
    #[inline(always)]
    pub(crate) fn fetch_in(&self, zone: u32, frame: u32, order: u8) -> Option<Block>
        requires { zone < zone_count self.now.zones }
        ensures out { IfSome result (IsOutOfZone self.now.zones zone) }
        ensures same { IfSome result (λ b. (b.frame ≡ frame) × (b.order ≡ order)) }
    {
        let place = zone as usize;
        let allocator = &self.zones.zones[place];
        self.slots[place].fetch(allocator, frame, order)
    }

    /// Lays the block down at its slot. Where one rests there, or there is none, it is handed back.
    #[inline(always)]
    pub(crate) fn rest(&self, held: ZoneBlock) -> Result<ZoneReceipt, ZoneBlock>
        requires { IsOutOfItsZone self.now.zones held }
        ensures laid { IfOk result (IsReceiptOf held) }
        ensures out { IfErr result (IsOutOfItsZone self.now.zones) }
        ensures zone { IfErr result (λ b. b.zone ≡ held.zone) }
    {
        let ZoneBlock { zone, block } = held;
        match self.rest_in(zone, block) {
            Ok(receipt) => Ok(ZoneReceipt { zone, receipt }),
            Err(block) => Err(ZoneBlock { zone, block }),
        }
    }

    // The same in its zone.
    #[inline(always)]
    fn rest_in(&self, zone: u32, block: Block) -> Result<Receipt, Block>
        requires zone { zone < zone_count self.now.zones }
        requires out { IsOutOfZone self.now.zones zone block }
        ensures laid { IfOk result (λ r. (r.frame ≡ block.frame) × (r.order ≡ block.order)) }
        ensures out { IfErr result (IsOutOfZone self.now.zones zone) }
    {
        let place = zone as usize;
        let allocator = &self.zones.zones[place];
        let Some(slot) = self.slots[place].find(allocator, block.frame(), block.order()) else {
            return Err(block);
        };
        slot.rest(allocator, block)
    }
}
