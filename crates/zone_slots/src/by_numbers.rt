//! Takes, gives and splits of blocks whose rights rest at their slots.

ghost use Rattle.std.specs.Prelude.{◌≡◌, ◌≢◌, ◌+◌, ◌-◌, ◌^◌, ◌<◌, ◌≤◌, IfOk, IfErr, IfSome, IfNone};
ghost use Rattle.core_frames.specs.Bounds.{most_in_give};
ghost use Rattle.frame_model.specs.Block.{block as block_at};
ghost use Rattle.frame_zones.specs.Uses.{KeepsAll, GivesIn, moves_through};
ghost use Rattle.frame_zones.specs.Zones.{zone_count, InEach, AreCoresOf, IsOutOfItsZone};
ghost use Rattle.zone_slots.specs.Memories.{IsFirstOf, block_given, block_laid};
ghost use Rattle.zone_slots.specs.Refusals.{IsRefusedSplit};
ghost use Rattle.zone_slots.specs.Uses.{HasTakenFor, IsReceiptOf, GivesInZone, GivesByNumber, SplitsByNumber, IsRefusedTake};

use crate::first_zone::FirstZone;
use crate::memory::Memory;
use crate::refusal::Refusal;
use crate::zone_receipt::ZoneReceipt;
use frame_words::TakeFault;
use frame_zones::{GivenBlock, ZoneBlock, ZoneCore};

impl Memory {
    /// Takes a block, and lays it down at its slot.
    #[inline]
    pub(crate) fn take_at_slot(
        &self,
        core: &mut ZoneCore,
        slotless: &mut u64,
        order: u8,
    ) -> Result<ZoneReceipt, TakeFault>
        requires { AreCoresOf self.now.zones core.old }
        ensures core { AreCoresOf self.now.zones core.new }
        ensures taken { IfOk result (HasTakenFor self.now.zones order core.old core.new) }
        ensures counted { IfOk result (λ _. slotless.new ≡ slotless.old) }
        ensures refused { IfErr result (IsRefusedTake self.now.zones order core.old core.new
            slotless.old slotless.new) }
    {
        let held = self.zones.take(core, order)?;
        let Some(receipt) = self.lay_down(core, held) else {
            *slotless = slotless.wrapping_add(1);
            return Err(TakeFault::Contended);
        };
        Ok(receipt)
    }

    /// Fetches a block from its slot, and gives it.
    #[inline]
    pub(crate) fn give_from_slot(
        &self,
        known: FirstZone,
        core: &mut ZoneCore,
        frame: u32,
        order: u8,
    ) -> Result<GivenBlock, Refusal>
        requires known { IsFirstOf self.now.zones known }
        requires core { AreCoresOf self.now.zones core.old }
        ensures core { AreCoresOf self.now.zones core.new }
        ensures given { IfOk result (λ _. GivesByNumber self.now.zones order frame core.old core.new) }
        ensures very { IfOk result (λ g. block_given self.now.zones g ≡ block_at frame order) }
        ensures same { IfErr result (λ _. core.new ≡ core.old) }
        ensures refused { IfErr result (λ e. e ≡ Refusal.NotHeld) }
    {
        if let Some(local) = known.number_of(frame) {
            return self.give_in(core, 0, local, order);
        }
        self.give_elsewhere(core, frame, order)
    }

    // The same where the first zone does not have the frame. The look-up answers two numbers through memory,
    // which a give in the first zone is spared.
    fn give_elsewhere(
        &self,
        core: &mut ZoneCore,
        frame: u32,
        order: u8,
    ) -> Result<GivenBlock, Refusal>
        requires { AreCoresOf self.now.zones core.old }
        ensures core { AreCoresOf self.now.zones core.new }
        ensures given { IfOk result (λ _. GivesByNumber self.now.zones order frame core.old core.new) }
        ensures very { IfOk result (λ g. block_given self.now.zones g ≡ block_at frame order) }
        ensures same { IfErr result (λ _. core.new ≡ core.old) }
        ensures refused { IfErr result (λ e. e ≡ Refusal.NotHeld) }
    {
        let Some((zone, local)) = self.zones.zone_of(core.home, u64::from(frame)) else {
            return Err(Refusal::NotHeld);
        };
        self.give_in(core, zone, local, order)
    }

    /// The same in its zone, where it begins at this frame.
    #[inline(always)]
    pub(crate) fn give_in(
        &self,
        core: &mut ZoneCore,
        zone: u32,
        local: u32,
        order: u8,
    ) -> Result<GivenBlock, Refusal>
        requires core { AreCoresOf self.now.zones core.old }
        requires zone { zone < zone_count self.now.zones }
        ensures core { AreCoresOf self.now.zones core.new }
        ensures given { IfOk result (λ _.
            GivesInZone self.now.zones order core.old core.new zone local) }
        ensures very { IfOk result (λ g. (g.zone ≡ zone) × (g.frame ≡ local) × (g.order ≡ order)) }
        ensures same { IfErr result (λ _. core.new ≡ core.old) }
        ensures refused { IfErr result (λ e. e ≡ Refusal.NotHeld) }
    {
        let Some(block) = self.fetch_in(zone, local, order) else {
            return Err(Refusal::NotHeld);
        };
        let given = self.zones.give(core, ZoneBlock { zone, block });
        Ok(given)
    }

    /// Fetches a block from its slot, and lays its halves down at theirs, the lower first.
    #[inline]
    pub(crate) fn split_at_slot(
        &self,
        known: FirstZone,
        core: &mut ZoneCore,
        slotless: &mut u64,
        frame: u32,
        order: u8,
    ) -> Result<(ZoneReceipt, ZoneReceipt), Refusal>
        requires known { IsFirstOf self.now.zones known }
        requires core { AreCoresOf self.now.zones core.old }
        ensures core { AreCoresOf self.now.zones core.new }
        ensures split { IfOk result (λ _. SplitsByNumber self.now.zones order frame core.old core.new) }
        ensures lower { IfOk result (λ r. block_laid self.now.zones r.0 ≡ block_at frame (order - 1)) }
        ensures upper { IfOk result (λ r. block_laid self.now.zones r.1
            ≡ block_at (frame + 2 ^ (order - 1)) (order - 1)) }
        ensures same { IfErr result (λ e. e ≢ Refusal.NoSlot → core.new ≡ core.old) }
        ensures counted { IfOk result (λ _. slotless.new ≡ slotless.old) }
        ensures refused { IfErr result (IsRefusedSplit self.now.zones order frame core.old core.new
            slotless.old slotless.new) }
        ensures kept { IfErr result (λ _. InEach self.now.zones KeepsAll core.old core.new) }
    {
        if order == 0 {
            return Err(Refusal::NoParts);
        }
        let Some(held) = self.fetch(known, core.home, frame, order) else {
            return Err(Refusal::NotHeld);
        };
        match self.zones.split(core, held) {
            Ok((lower, upper)) => {
                let lower_rests = self.lay_down(core, lower);
                let upper_rests = self.lay_down(core, upper);
                let (Some(lower), Some(upper)) = (lower_rests, upper_rests) else {
                    *slotless = slotless.wrapping_add(1);
                    return Err(Refusal::NoSlot);
                };
                Ok((lower, upper))
            }
            Err(held) => {
                self.lay_down(core, held);
                *slotless = slotless.wrapping_add(1);
                Err(Refusal::NoSlot)
            }
        }
    }

    /// Lays the block down at its slot. Where one rests there, or there is none, the block is given back.
    #[inline]
    pub(crate) fn lay_down(&self, core: &mut ZoneCore, held: ZoneBlock) -> Option<ZoneReceipt>
        requires out { IsOutOfItsZone self.now.zones held }
        requires core { AreCoresOf self.now.zones core.old }
        ensures core { AreCoresOf self.now.zones core.new }
        ensures rests { IfSome result (λ _. core.new ≡ core.old) }
        ensures same { IfSome result (IsReceiptOf held) }
        ensures given { IfNone result (GivesIn self.now.zones held.zone core.old core.new) }
        ensures moves { moves_through core.new ≤ moves_through core.old + most_in_give }
    {
        match self.rest(held) {
            Ok(receipt) => Some(receipt),
            Err(held) => {
                self.zones.give(core, held);
                None
            }
        }
    }
}
