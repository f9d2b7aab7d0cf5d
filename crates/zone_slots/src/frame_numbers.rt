//! Takes and gives of single frames by number, of which some rest with a core.

ghost use Rattle.std.specs.Prelude.{◌≡◌, ◌+◌, ◌≤◌, IfOk, IfErr, IfSome, IfNone};
ghost use Rattle.core_frames.specs.Bounds.{most_in_give};
ghost use Rattle.frame_model.specs.Block.{block as block_at};
ghost use Rattle.frame_words.specs.declared.fault.TakeFault.TheVariants.{Contended};
ghost use Rattle.frame_zones.specs.Uses.{GivesIn, moves_through};
ghost use Rattle.frame_zones.specs.Zones.{AreCoresOf, IsOutOfItsZone};
ghost use Rattle.zone_slots.specs.Calls.{SharesOne, CountsNone, RemembersLast};
ghost use Rattle.zone_slots.specs.FrameCalls.{IsSingleFor};
ghost use Rattle.zone_slots.specs.FrameNumbers.{TakesNumber, LaysDown, GoesBack, RefusesNumber, GivesNumber, GivesNone};
ghost use Rattle.zone_slots.specs.Memories.{IsFirstOf, block_laid};
ghost use Rattle.zone_slots.specs.Resting.{IsSingleIn};
ghost use Rattle.zone_slots.specs.Uses.{GivesByNumber};

use crate::core_state::CoreState;
use crate::first_zone::FirstZone;
use crate::memory::Memory;
use crate::refusal::Refusal;
use crate::single_frame::SingleFrame;
use crate::zone_receipt::ZoneReceipt;
use frame_words::TakeFault;
use frame_zones::{ZoneBlock, ZoneCore};

impl CoreState {
    /// Takes a single frame as `take_frame` does, and answers its number. Its right rests at its slot until any
    /// core gives it.
    pub fn take_number(&mut self) -> Result<u32, TakeFault>
        ensures shared { SharesOne self.old self.new }
        ensures taken { IfOk result (λ frame. TakesNumber frame self.old self.new) }
        ensures counted { IfOk result (λ _. CountsNone self.old self.new) }
        ensures refused { IfErr result (RefusesNumber self.old self.new) }
        ensures last { IfErr result (λ _. RemembersLast self.old self.new) }
    {
        let frame = self.take_frame()?;
        self.lay_down(frame)
    }

    // The frame is laid down at its slot; where that has no place for it, it goes back.
    #[inline(always)]
    fn lay_down(&mut self, frame: SingleFrame) -> Result<u32, TakeFault>
        requires { IsSingleFor self.old frame }
        ensures shared { SharesOne self.old self.new }
        ensures same { IfOk result (λ number. number ≡ frame.frame) }
        ensures laid { IfOk result (λ _. LaysDown frame.frame self.old self.new) }
        ensures counted { IfOk result (λ _. CountsNone self.old self.new) }
        ensures refused { IfErr result (λ fault. fault ≡ Contended) }
        ensures back { IfErr result (λ _. GoesBack frame.frame self.old self.new) }
        ensures last { IfErr result (λ _. RemembersLast self.old self.new) }
    {
        let number = frame.frame;
        let Some(receipt) = self
            .shared
            .lay_single_down(self.first, &mut self.core, frame)
        else {
            self.slotless = self.slotless.wrapping_add(1);
            return Err(TakeFault::Contended);
        };
        self.last = Some(receipt);
        Ok(number)
    }

    /// Gives exactly this single frame back, where it is held, whichever core took it: it comes to rest, as
    /// `give_frame` has it.
    pub fn give_number(&mut self, frame: u32) -> Result<(), Refusal>
        ensures shared { SharesOne self.old self.new }
        ensures given { IfOk result (λ _. GivesNumber frame self.old self.new) }
        ensures same { IfErr result (λ _. GivesNone self.old self.new) }
        ensures counted { CountsNone self.old self.new }
        ensures refused { IfErr result (λ e. e ≡ Refusal.NotHeld) }
        ensures last { RemembersLast self.old self.new }
    {
        let Some(single) = self.shared.fetch_single(self.first, self.core.home, frame) else {
            return Err(Refusal::NotHeld);
        };
        self.give_frame(single);
        Ok(())
    }
}

impl Memory {
    // Lays the frame down at its slot. Where one rests there, or there is none, the frame is given back.
    #[inline(always)]
    fn lay_single_down(
        &self,
        known: FirstZone,
        core: &mut ZoneCore,
        frame: SingleFrame,
    ) -> Option<ZoneReceipt>
        requires known { IsFirstOf self.now.zones known }
        requires core { AreCoresOf self.now.zones core.old }
        requires single { IsSingleIn self.now.zones frame }
        ensures core { AreCoresOf self.now.zones core.new }
        ensures very { IfSome result (λ r. block_laid self.now.zones r ≡ block_at frame.frame 0) }
        ensures rests { IfSome result (λ _. core.new ≡ core.old) }
        ensures given { IfNone result (GivesByNumber self.now.zones 0 frame.frame core.old core.new) }
    {
        let SingleFrame { frame, seat } = frame;
        let held = self.block_at(known, frame, 0, seat);
        match self.rest(held) {
            Ok(receipt) => Some(receipt),
            Err(held) => {
                self.give_back(core, held);
                None
            }
        }
    }

    // Never seen: so it is no part of the calls that are.
    #[inline(never)]
    fn give_back(&self, core: &mut ZoneCore, held: ZoneBlock)
        requires core { AreCoresOf self.now.zones core.old }
        requires out { IsOutOfItsZone self.now.zones held }
        ensures core { AreCoresOf self.now.zones core.new }
        ensures given { GivesIn self.now.zones held.zone core.old core.new }
        ensures moves { moves_through core.new ≤ moves_through core.old + most_in_give }
    {
        self.zones.give(core, held);
    }

    // The right to the single frame of this number, if it rests at its slot.
    #[inline(always)]
    fn fetch_single(&self, known: FirstZone, hint: u32, frame: u32) -> Option<SingleFrame>
        requires { IsFirstOf self.now.zones known }
        ensures single { IfSome result (IsSingleIn self.now.zones) }
        ensures number { IfSome result (λ single. single.frame ≡ frame) }
    {
        let held = self.fetch(known, hint, frame, 0)?;
        let ZoneBlock { zone: _, block } = held;
        let seat = block.into_seat();
        Some(SingleFrame { frame, seat })
    }
}
