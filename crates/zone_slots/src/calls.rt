//! What a core is asked for by frame and order.

ghost use Rattle.std.specs.Prelude.{◌≡◌, ◌≢◌, IfOk, IfErr, IfSome};
ghost use Rattle.zone_slots.specs.Calls.{frames_by, TakesFor, GivesFor, SplitsFor, SplitsToFor, SeesFor, RefusesSplitTo, CountsNone, RemembersLast, KeepsCore, RefusesTake};
ghost use Rattle.zone_slots.specs.FrameCalls.{LeavesRest};
ghost use Rattle.zone_slots.specs.Refusals.{RefusesSplit};

use crate::core_state::CoreState;
use crate::refusal::Refusal;
use frame_words::TakeFault;

impl CoreState {
    /// The frames of the memory: those of all zones together.
    pub fn frames(&self) -> u32
        ensures { result ≡ frames_by self.now }
    {
        self.shared.frames
    }

    /// Takes a block of `2^order` frames and answers its first, by its number over all zones: of the
    /// core's home zone, else of the next one that has such a block. Its right rests at its slot until
    /// any core gives it. No memory is needed, and nobody waits.
    pub fn take(&mut self, order: u8) -> Result<u32, TakeFault>
        ensures rest { LeavesRest self.old self.new }
        ensures taken { IfOk result (λ frame. TakesFor order frame self.old self.new) }
        ensures counted { IfOk result (λ _. CountsNone self.old self.new) }
        ensures refused { IfErr result (RefusesTake order self.old self.new) }
        ensures last { IfErr result (λ _. RemembersLast self.old self.new) }
    {
        let known = self.first;
        let receipt = self
            .shared
            .take_at_slot(&mut self.core, &mut self.slotless, order)?;
        let frame = self.shared.number_of(known, &receipt);
        self.last = Some(receipt);
        Ok(frame)
    }

    /// Gives exactly this block back, where it is held, whichever core took it. No memory is needed,
    /// and nobody waits.
    pub fn give(&mut self, frame: u32, order: u8) -> Result<(), Refusal>
        ensures rest { LeavesRest self.old self.new }
        ensures given { IfOk result (λ _. GivesFor order frame self.old self.new) }
        ensures same { IfErr result (λ _. KeepsCore self.old self.new) }
        ensures counted { CountsNone self.old self.new }
        ensures refused { IfErr result (λ e. e ≡ Refusal.NotHeld) }
        ensures last { RemembersLast self.old self.new }
    {
        let first = self.first;
        let given = self
            .shared
            .give_from_slot(first, &mut self.core, frame, order)?;
        self.given = Some(given);
        Ok(())
    }

    /// Splits exactly this block into its halves, where it is held, whichever core took it; any core
    /// gives each of them then. No memory is needed, and nobody waits.
    pub fn split(&mut self, frame: u32, order: u8) -> Result<(), Refusal>
        ensures rest { LeavesRest self.old self.new }
        ensures split { IfOk result (λ _. SplitsFor order frame self.old self.new) }
        ensures same { IfErr result (λ e. e ≢ Refusal.NoSlot → KeepsCore self.old self.new) }
        ensures counted { IfOk result (λ _. CountsNone self.old self.new) }
        ensures refused { IfErr result (RefusesSplit order frame self.old self.new) }
        ensures last { RemembersLast self.old self.new }
    {
        let halves = self.shared.split_at_slot(
            self.first,
            &mut self.core,
            &mut self.slotless,
            frame,
            order,
        )?;
        self.halves = Some(halves);
        Ok(())
    }

    /// Splits exactly this block into all its blocks of an order, where it is held, whichever core took it;
    /// any core gives each of them then. No memory is needed, and nobody waits.
    pub fn split_to(&mut self, frame: u32, order: u8, to: u8) -> Result<(), Refusal>
        ensures rest { LeavesRest self.old self.new }
        ensures split { IfOk result (λ _. SplitsToFor order to frame self.old self.new) }
        ensures same { IfErr result (λ e. e ≢ Refusal.NoSlot → KeepsCore self.old self.new) }
        ensures counted { IfOk result (λ _. CountsNone self.old self.new) }
        ensures refused { IfErr result (RefusesSplitTo order to frame self.old self.new) }
        ensures last { RemembersLast self.old self.new }
    {
        let parts = self.shared.split_to_at_slot(
            self.first,
            &mut self.core,
            &mut self.slotless,
            frame,
            order,
            to,
        )?;
        self.parts = Some(parts);
        Ok(())
    }

    /// The order of the block that begins at this frame and rests at its slot, as a look at each of its slots
    /// sees it: nothing is taken or moved. No memory is needed, and nobody waits.
    pub fn order_at(&mut self, frame: u32) -> Option<u8>
        ensures rest { LeavesRest self.old self.new }
        ensures seen { IfSome result (λ order. SeesFor order frame self.old self.new) }
        ensures same { KeepsCore self.old self.new }
        ensures counted { CountsNone self.old self.new }
        ensures last { RemembersLast self.old self.new }
    {
        let sight = self.shared.look(self.first, self.core.home, frame)?;
        let order = sight.order();
        self.seen = Some(sight);
        Some(order)
    }
}
