//! Takes, gives and splits of blocks whose rights the caller keeps, by no slot.

ghost use Rattle.std.specs.Prelude.{◌≡◌, ◌+◌, IfOk, IfErr};
ghost use Rattle.frame_zones.specs.Frames.{IsLastFrom, BeginBehind};
ghost use Rattle.frame_zones.specs.Uses.{IsGivenFor};
ghost use Rattle.frame_zones.specs.Zones.{AreCoresOf, IsOutOfItsZone, first_frame_of, first_frame_in};
ghost use Rattle.zone_slots.specs.Blocks.{HasTakenBlock, HasSplitBlock, TakesBlockFor, SplitsBlockFor, IsOutFor, frame_for, IsRightThrough};
ghost use Rattle.zone_slots.specs.Rights.{IsRightFrom};
ghost use Rattle.zone_slots.specs.Calls.{GivesFor, CountsNone, RemembersLast, KeepsCore, RefusesBlock};
ghost use Rattle.zone_slots.specs.FrameCalls.{LeavesRest};
ghost use Rattle.zone_slots.specs.Memories.{IsFirstOf};
ghost use Rattle.zone_slots.specs.Uses.{GivesInZone, IsRefusedBlock};

use crate::core_state::CoreState;
use crate::first_zone::FirstZone;
use crate::memory::Memory;
use atomic_table::Seat;
use frame_core::HeldBlock;
use frame_table::{Block, Watch};
use frame_words::TakeFault;
use frame_zones::{GivenBlock, ZoneBlock, ZoneCore};

impl CoreState {
    /// Takes a block of `2^order` frames: of the core's home zone, else of the next one that has such a
    /// block. No memory is needed, and nobody waits.
    pub fn take_block(&mut self, order: u8) -> Result<ZoneBlock, TakeFault>
        ensures rest { LeavesRest self.old self.new }
        ensures taken { IfOk result (TakesBlockFor order self.old self.new) }
        ensures counted { CountsNone self.old self.new }
        ensures last { RemembersLast self.old self.new }
        ensures refused { IfErr result (RefusesBlock order self.old self.new) }
    {
        self.shared.take_from(&mut self.core, order)
    }

    /// Gives the block back, whichever core took it. It always succeeds. No memory is needed, and
    /// nobody waits.
    pub fn give_block(&mut self, held: ZoneBlock)
        requires { IsOutFor self.old held }
        ensures rest { LeavesRest self.old self.new }
        ensures given { GivesFor held.block.order (frame_for self.old held) self.old self.new }
        ensures counted { CountsNone self.old self.new }
        ensures last { RemembersLast self.old self.new }
    {
        let given = self.shared.give_to(&mut self.core, held);
        self.given = Some(given);
    }

    /// The halves of the block, the lower first. A block of order 0 has none, and is handed back.
    pub fn split_block(&mut self, held: ZoneBlock) -> Result<(ZoneBlock, ZoneBlock), ZoneBlock>
        requires { IsOutFor self.old held }
        ensures rest { LeavesRest self.old self.new }
        ensures split { IfOk result (λ r. SplitsBlockFor held r.0 r.1 self.old self.new) }
        ensures counted { CountsNone self.old self.new }
        ensures last { RemembersLast self.old self.new }
        ensures whole { IfErr result (λ same. (same ≡ held) × (held.block.order ≡ 0)) }
        ensures same { IfErr result (λ _. KeepsCore self.old self.new) }
    {
        self.shared.split_in(&mut self.core, held)
    }

    /// The number of the block's first frame among those of all zones.
    pub fn frame_of(&self, held: &ZoneBlock) -> u32
        requires { IsOutFor self.now held.now }
        ensures { result ≡ frame_for self.now held.now }
    {
        self.shared.frame_at(self.first, held)
    }

    /// The block of the order that begins at the frame of this number, whose right this seat is: its
    /// zone is looked up.
    pub fn block_of(&self, frame: u32, order: u8, seat: Seat<(), Watch>) -> ZoneBlock
        requires { IsRightThrough self.now frame order seat.table_id seat.me }
        ensures out { IsOutFor self.now result }
        ensures frame { frame_for self.now result ≡ frame }
        ensures order { result.block.order ≡ order }
        ensures seat { result.block.seat ≡ seat }
    {
        self.shared.block_at(self.first, frame, order, seat)
    }
}

impl Memory {
    #[inline(always)]
    pub(crate) fn take_from(&self, core: &mut ZoneCore, order: u8) -> Result<ZoneBlock, TakeFault>
        requires { AreCoresOf self.now.zones core.old }
        ensures core { AreCoresOf self.now.zones core.new }
        ensures taken { IfOk result (HasTakenBlock self.now.zones order core.old core.new) }
        ensures refused { IfErr result (IsRefusedBlock self.now.zones order core.old core.new) }
    {
        self.zones.take(core, order)
    }

    #[inline(always)]
    pub(crate) fn give_to(&self, core: &mut ZoneCore, held: ZoneBlock) -> GivenBlock
        requires core { AreCoresOf self.now.zones core.old }
        requires out { IsOutOfItsZone self.now.zones held }
        ensures core { AreCoresOf self.now.zones core.new }
        ensures given { GivesInZone self.now.zones held.block.order core.old core.new
            held.zone held.block.frame }
        ensures very { IsGivenFor held result }
    {
        self.zones.give(core, held)
    }

    fn split_in(
        &self,
        core: &mut ZoneCore,
        held: ZoneBlock,
    ) -> Result<(ZoneBlock, ZoneBlock), ZoneBlock>
        requires core { AreCoresOf self.now.zones core.old }
        requires out { IsOutOfItsZone self.now.zones held }
        ensures core { AreCoresOf self.now.zones core.new }
        ensures split { IfOk result (λ r.
            HasSplitBlock self.now.zones held r.0 r.1 core.old core.new) }
        ensures whole { IfErr result (λ same. (same ≡ held) × (held.block.order ≡ 0)) }
        ensures same { IfErr result (λ _. core.new ≡ core.old) }
    {
        if held.order() == 0 {
            return Err(held);
        }
        self.zones.split(core, held)
    }

    #[inline(always)]
    pub(crate) fn frame_at(&self, known: FirstZone, held: &ZoneBlock) -> u32
        requires known { IsFirstOf self.now.zones known }
        requires out { IsOutOfItsZone self.now.zones held.now }
        ensures { result ≡ first_frame_in self.now.zones held.now }
    {
        self.number_at(known, held.zone, held.block.frame())
    }

    #[inline(always)]
    pub(crate) fn block_at(
        &self,
        known: FirstZone,
        frame: u32,
        order: u8,
        seat: Seat<(), Watch>,
    ) -> ZoneBlock
        requires known { IsFirstOf self.now.zones known }
        requires right { IsRightFrom self.now.zones frame order seat.table_id seat.me }
        ensures out { IsOutOfItsZone self.now.zones result }
        ensures frame { first_frame_in self.now.zones result ≡ frame }
        ensures order { result.block.order ≡ order }
        ensures seat { result.block.seat ≡ seat }
    {
        let (zone, local) = self.place_of(known, frame);
        let block = Block::of(local, order, seat);
        ZoneBlock { zone, block }
    }

    // The last zone that begins at the frame of this number or before it, and the frame's number there.
    #[inline(always)]
    fn place_of(&self, known: FirstZone, frame: u32) -> (u32, u32)
        requires known { IsFirstOf self.now.zones known }
        requires some { ¬ BeginBehind self.now.zones frame }
        ensures zone { IsLastFrom self.now.zones frame result.0 }
        ensures local { first_frame_of self.now.zones result.0 + result.1 ≡ frame }
    {
        if let Some(local) = known.number_of(frame) {
            return (0, local);
        }
        let Some(zone) = self.zones.last_from(u64::from(frame)) else {
            unreachable!()
        };
        let local = frame - self.zones.firsts[zone] as u32;
        (zone as u32, local)
    }
}
