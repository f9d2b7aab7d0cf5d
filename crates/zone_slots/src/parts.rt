//! Blocks that are split into all their blocks of one order.

ghost use Rattle.std.specs.Prelude.{◌≡◌, ◌≢◌, ◌+◌, ◌^◌, ◌-◌, ◌<◌, IsTrue, IsFalse, IfOk, IfErr};
ghost use Rattle.frame_zones.specs.Uses.{KeepsAll};
ghost use Rattle.frame_zones.specs.Zones.{InEach, AreCoresOf, IsOutOfItsZone};
ghost use Rattle.zone_slots.specs.Memories.{IsFirstOf};
ghost use Rattle.zone_slots.specs.Parts.{IsNextPart, AreMore, BeginsNext, LaysParts, LaysFirstParts, parts_laid, parts_of, SplitsToByNumber, IsRefusedSplitTo};

use crate::first_zone::FirstZone;
use crate::memory::Memory;
use crate::refusal::Refusal;
use crate::zone_receipt::ZoneReceipt;
use frame_core::HeldBlock;
use frame_words::HUGE_ORDER;
use frame_zones::{ZoneBlock, ZoneCore};

/// That so many blocks of one order, side by side in a zone, were laid down at their slots, each for a receipt.
#[derive(Debug, Drop)]
pub struct Parts {
    pub(crate) zone: u32,
    // The first frame of the first one.
    pub(crate) frame: u32,
    pub(crate) order: u8,
    pub(crate) count: u32,
}

impl Parts {
    /// No block, where the first one is to begin at this frame of the zone.
    pub(crate) fn none(zone: u32, frame: u32, order: u8) -> Parts
        ensures { result ≡ record { zone = zone; frame = frame; order = order; count = 0 } }
    {
        Parts {
            zone,
            frame,
            order,
            count: 0,
        }
    }

    /// The next one was laid down.
    pub(crate) fn add(&mut self, receipt: ZoneReceipt)
        requires { IsNextPart self.old receipt }
        ensures { AreMore 1 self.old self.new }
    {
        let _ = receipt;
        self.count += 1;
    }
}

impl Memory {
    /// Fetches a block from its slot, and lays all its blocks of an order down at theirs, the first one first.
    pub(crate) fn split_to_at_slot(
        &self,
        known: FirstZone,
        core: &mut ZoneCore,
        slotless: &mut u64,
        frame: u32,
        order: u8,
        to: u8,
    ) -> Result<Parts, Refusal>
        requires known { IsFirstOf self.now.zones known }
        requires core { AreCoresOf self.now.zones core.old }
        ensures core { AreCoresOf self.now.zones core.new }
        ensures split { IfOk result (λ _.
            SplitsToByNumber self.now.zones order to frame core.old core.new) }
        ensures parts { IfOk result (λ p.
            parts_laid self.now.zones p ≡ parts_of frame order to) }
        ensures same { IfErr result (λ e. e ≢ Refusal.NoSlot → core.new ≡ core.old) }
        ensures counted { IfOk result (λ _. slotless.new ≡ slotless.old) }
        ensures refused { IfErr result (IsRefusedSplitTo self.now.zones order to frame core.old core.new
            slotless.old slotless.new) }
        ensures kept { IfErr result (λ _. InEach self.now.zones KeepsAll core.old core.new) }
    {
        if order > HUGE_ORDER || to > order {
            return Err(Refusal::NoParts);
        }
        let Some(held) = self.fetch(known, core.home, frame, order) else {
            return Err(Refusal::NotHeld);
        };
        let mut parts = Parts::none(held.zone, held.block.frame(), to);
        if !self.lay_parts(core, held, &mut parts) {
            *slotless = slotless.wrapping_add(1);
            return Err(Refusal::NoSlot);
        }
        Ok(parts)
    }

    // Lays the parts of the block down at their slots, the first one first. Does each find its slot? Else that part
    // and those behind it are given back.
    fn lay_parts(&self, core: &mut ZoneCore, held: ZoneBlock, parts: &mut Parts) -> bool
        requires core { AreCoresOf self.now.zones core.old }
        requires out { IsOutOfItsZone self.now.zones held }
        requires next { BeginsNext parts.old held }
        ensures core { AreCoresOf self.now.zones core.new }
        ensures kept { InEach self.now.zones KeepsAll core.old core.new }
        ensures laid { IsTrue result
            → LaysParts self.now.zones held parts.old parts.new core.old core.new }
        ensures fewer { IsFalse result
            → LaysFirstParts self.now.zones held parts.old parts.new core.old core.new }
    {
        if held.order() == parts.order {
            let Some(receipt) = self.lay_down(core, held) else {
                return false;
            };
            parts.add(receipt);
            return true;
        }
        let Ok((lower, upper)) = self.zones.split(core, held) else {
            unreachable!()
        };
        if !self.lay_parts(core, lower, parts) {
            self.zones.give(core, upper);
            return false;
        }
        self.lay_parts(core, upper, parts)
    }
}
