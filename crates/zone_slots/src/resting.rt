//! Single frames of a memory, and those that rest with a core of it.

ghost use Rattle.std.specs.Prelude.{◌≡◌, ◌+◌, ◌-◌, ◌<◌, ◌≤◌, [], length, take, IfOk, IfErr, vec_len, vec_capacity};
ghost use Rattle.std.specs.List.{All};
ghost use Rattle.frame_zones.specs.Zones.{zone_count, first_frame_in, AreCoresOf, IsOutOfItsZone};
ghost use Rattle.zone_slots.specs.Memories.{IsFirstOf};
ghost use Rattle.zone_slots.specs.Resting.{IsSingleIn, AreSingles, HasTakenSingle, LendAsManyBesides};
ghost use Rattle.zone_slots.specs.Resting.{IsSingleOfZone, ComeToRest, BringsNone, PlansNext};
ghost use Rattle.zone_slots.specs.Uses.{GivesByNumber, IsRefusedBlock};

use crate::first_zone::FirstZone;
use crate::frame_list::FrameList;
use crate::memory::Memory;
use crate::single_frame::SingleFrame;
use frame_table::Block;
use frame_words::TakeFault;
use frame_zones::{ZoneBlock, ZoneCore};

impl Memory {
    /// Takes a single frame.
    #[inline(never)]
    pub(crate) fn take_single(
        &self,
        known: FirstZone,
        core: &mut ZoneCore,
    ) -> Result<SingleFrame, TakeFault>
        requires known { IsFirstOf self.now.zones known }
        requires core { AreCoresOf self.now.zones core.old }
        ensures core { AreCoresOf self.now.zones core.new }
        ensures taken { IfOk result (HasTakenSingle self.now.zones core.old core.new) }
        ensures refused { IfErr result (IsRefusedBlock self.now.zones 0 core.old core.new) }
    {
        let held = self.take_from(core, 0)?;
        Ok(self.single_of(known, held))
    }

    // The right to the frame, by its number.
    #[inline(always)]
    fn single_of(&self, known: FirstZone, held: ZoneBlock) -> SingleFrame
        requires known { IsFirstOf self.now.zones known }
        requires out { IsOutOfItsZone self.now.zones held }
        requires single { held.block.order ≡ 0 }
        ensures single { IsSingleIn self.now.zones result }
        ensures frame { result.frame ≡ first_frame_in self.now.zones held }
    {
        let frame = self.frame_at(known, &held);
        let ZoneBlock { zone: _, block } = held;
        let seat = block.into_seat();
        SingleFrame { frame, seat }
    }

    /// Where none rests, up to so many single frames of the core's own tree come to rest, of which the one that
    /// was taken first leaves first.
    pub(crate) fn refill(
        &self,
        known: FirstZone,
        core: &mut ZoneCore,
        rest: &mut FrameList,
        most: u32,
    )
        requires known { IsFirstOf self.now.zones known }
        requires core { AreCoresOf self.now.zones core.old }
        requires empty { rest.old.list.items ≡ [] }
        requires few { most ≤ 16 }
        ensures lent { LendAsManyBesides self.now.zones core.old rest.old.list.items core.new rest.new.list.items }
        ensures none { rest.new.list.items ≡ [] → BringsNone self.now.zones most core.old core.new }
        ensures few { length rest.new.list.items ≤ most }
        ensures next { PlansNext rest.new.list.items rest.old.next rest.new.next }
    {
        let (zone, _count) = self.zones.take_more(core, most, &mut rest.batch);
        self.lay_all(known, zone, &mut rest.batch, &mut rest.list);
        rest.plan();
    }

    // The rights to the frames of the zone come to rest, the last one first.
    #[inline(always)]
    fn lay_all(
        &self,
        known: FirstZone,
        zone: u32,
        blocks: &mut Vec<Block>,
        rest: &mut Vec<SingleFrame>,
    )
        requires known { IsFirstOf self.now.zones known }
        requires zone { zone < zone_count self.now.zones }
        requires out { All (IsSingleOfZone self.now.zones zone) blocks.old.items }
        requires rest { AreSingles self.now.zones rest.old.items }
        requires room { vec_len rest.old + vec_len blocks.old ≤ vec_capacity rest.old }
        ensures rest { ComeToRest self.now.zones zone (length blocks.old.items) rest.old.items rest.new.items }
        ensures none { blocks.new.items ≡ [] }
        ensures room { vec_capacity rest.new ≡ vec_capacity rest.old }
        ensures same_room { vec_capacity blocks.new ≡ vec_capacity blocks.old }
    {
        while let Some(block) = blocks.pop() {
            let frame = self.single_of(known, ZoneBlock { zone, block });
            rest.push_reserved(frame);
        }
    }

    // Gives the frame back: its zone is looked up.
    fn give_single(&self, known: FirstZone, core: &mut ZoneCore, frame: SingleFrame)
        requires known { IsFirstOf self.now.zones known }
        requires core { AreCoresOf self.now.zones core.old }
        requires single { IsSingleIn self.now.zones frame }
        ensures core { AreCoresOf self.now.zones core.new }
        ensures given { GivesByNumber self.now.zones 0 frame.frame core.old core.new }
    {
        let SingleFrame { frame, seat } = frame;
        let block = self.block_at(known, frame, 0, seat);
        let _given = self.give_to(core, block);
    }

    // Gives the frame back that came last.
    #[inline(always)]
    fn give_one(&self, known: FirstZone, core: &mut ZoneCore, rest: &mut FrameList)
        requires known { IsFirstOf self.now.zones known }
        requires core { AreCoresOf self.now.zones core.old }
        requires rest { AreSingles self.now.zones rest.old.list.items }
        requires some { 0 < length rest.old.list.items }
        ensures gives { LendAsManyBesides self.now.zones core.old rest.old.list.items core.new rest.new.list.items }
        ensures first { rest.new.list.items
            ≡ take (length rest.old.list.items - 1) rest.old.list.items }
    {
        let Some(frame) = rest.pop() else {
            unreachable!()
        };
        self.give_single(known, core, frame);
    }

    /// Gives so many of the frames back that came last.
    pub(crate) fn give_last(
        &self,
        known: FirstZone,
        core: &mut ZoneCore,
        rest: &mut FrameList,
        count: usize,
    )
        requires known { IsFirstOf self.now.zones known }
        requires core { AreCoresOf self.now.zones core.old }
        requires rest { AreSingles self.now.zones rest.old.list.items }
        requires enough { count ≤ length rest.old.list.items }
        ensures gives { LendAsManyBesides self.now.zones core.old rest.old.list.items core.new rest.new.list.items }
        ensures first { rest.new.list.items
            ≡ take (length rest.old.list.items - count) rest.old.list.items }
    {
        for _i in 0..count {
            self.give_one(known, core, rest);
        }
    }
}
