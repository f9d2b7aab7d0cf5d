//! Takes of just one block, whose right rests at its slot, or is kept by the caller.

ghost use Rattle.std.specs.Prelude.{◌≡◌, IfOk, IfErr};
ghost use Rattle.frame_model.specs.Block.{block as block_at};
ghost use Rattle.frame_zones.specs.Places.{TakesPlaceAmong, MovesForPlace};
ghost use Rattle.frame_zones.specs.Zones.{AreCoresOf};
ghost use Rattle.zone_slots.specs.Calls.{CountsNone, RemembersLast};
ghost use Rattle.zone_slots.specs.FrameCalls.{LeavesRest};
ghost use Rattle.zone_slots.specs.Memories.{block_laid};
ghost use Rattle.zone_slots.specs.Places.{TakesPlaceByNumber, TakesPlaceFor, TakesBlockAtFor};
ghost use Rattle.zone_slots.specs.Places.{IsRefusedTakeAt, RefusesTakeAt, RefusesBlockAt};

use crate::core_state::CoreState;
use crate::memory::Memory;
use crate::zone_receipt::ZoneReceipt;
use frame_words::TakeFault;
use frame_zones::{ZoneBlock, ZoneCore};

impl CoreState {
    /// Takes the block of `2^order` frames that begins at `frame`, by its number over all zones, where all of them
    /// are free; those that rest with a core are held. No other is looked for: `NoBlock` also where it is not
    /// aligned to its size, or no zone has all of it. Its right rests at its slot until any core gives it. No memory
    /// is needed, and nobody waits.
    pub fn take_at(&mut self, frame: u32, order: u8) -> Result<(), TakeFault>
        ensures rest { LeavesRest self.old self.new }
        ensures taken { IfOk result (λ _. TakesPlaceFor order frame self.old self.new) }
        ensures counted { IfOk result (λ _. CountsNone self.old self.new) }
        ensures refused { IfErr result (RefusesTakeAt order frame self.old self.new) }
        ensures last { IfErr result (λ _. RemembersLast self.old self.new) }
    {
        let receipt = self
            .shared
            .take_this_at_slot(&mut self.core, &mut self.slotless, frame, order)?;
        self.last = Some(receipt);
        Ok(())
    }

    /// Takes the same as a block whose right the caller keeps.
    pub fn take_block_at(&mut self, frame: u32, order: u8) -> Result<ZoneBlock, TakeFault>
        ensures rest { LeavesRest self.old self.new }
        ensures taken { IfOk result (TakesBlockAtFor order frame self.old self.new) }
        ensures counted { CountsNone self.old self.new }
        ensures last { RemembersLast self.old self.new }
        ensures refused { IfErr result (RefusesBlockAt order frame self.old self.new) }
    {
        self.shared.take_this(&mut self.core, frame, order)
    }
}

impl Memory {
    // Takes just this block, and lays it down at its slot.
    fn take_this_at_slot(
        &self,
        core: &mut ZoneCore,
        slotless: &mut u64,
        frame: u32,
        order: u8,
    ) -> Result<ZoneReceipt, TakeFault>
        requires { AreCoresOf self.now.zones core.old }
        ensures core { AreCoresOf self.now.zones core.new }
        ensures taken { IfOk result (λ _. TakesPlaceByNumber self.now.zones order frame core.old core.new) }
        ensures laid { IfOk result (λ r. block_laid self.now.zones r ≡ block_at frame order) }
        ensures counted { IfOk result (λ _. slotless.new ≡ slotless.old) }
        ensures refused { IfErr result (IsRefusedTakeAt self.now.zones order frame core.old core.new
            slotless.old slotless.new) }
    {
        let held = self.take_this(core, frame, order)?;
        let Some(receipt) = self.lay_down(core, held) else {
            *slotless = slotless.wrapping_add(1);
            return Err(TakeFault::Contended);
        };
        Ok(receipt)
    }

    // Takes just this block.
    fn take_this(&self, core: &mut ZoneCore, frame: u32, order: u8) -> Result<ZoneBlock, TakeFault>
        requires { AreCoresOf self.now.zones core.old }
        ensures core { AreCoresOf self.now.zones core.new }
        ensures takes { TakesPlaceAmong self.now.zones frame order result core.old core.new }
        ensures all_moves { MovesForPlace self.now.zones frame core.old core.new }
    {
        self.zones.take_at(core, frame as u64, order)
    }
}
