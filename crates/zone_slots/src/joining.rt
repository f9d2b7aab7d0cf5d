//! Single frames that leave a core's list together: those that make up a block are given as one.

ghost use Rattle.std.specs.Prelude.{◌≡◌, ◌+◌, ◌-◌, ◌^◌, ◌<◌, ◌≤◌, ◌∷◌, ◌++◌, [], length, take, Some, IfSome};
ghost use Rattle.frame_zones.specs.Zones.{first_frame_in, AreCoresOf, IsOutOfItsZone};
ghost use Rattle.zone_slots.specs.Memories.{IsFirstOf};
ghost use Rattle.zone_slots.specs.Resting.{AreSingles, LendAsManyBesides, GoBackOrJoin, LeaveTheList};
ghost use Rattle.zone_slots.specs.declared.single_frame.SingleFrame.{SingleFrame};

use crate::first_zone::FirstZone;
use crate::frame_list::{FLUSH, FrameList};
use crate::memory::Memory;
use crate::single_frame::SingleFrame;
use frame_zones::{ZoneBlock, ZoneCore};

// The order of a block of as many frames as go back.
const FLUSH_ORDER: u8 = 3;

impl Memory {
    /// Gives the 8 frames back that came last; those that make up a block go as one, by three atomic steps for all.
    pub(crate) fn give_together(&self, known: FirstZone, core: &mut ZoneCore, rest: &mut FrameList)
        requires known { IsFirstOf self.now.zones known }
        requires core { AreCoresOf self.now.zones core.old }
        requires rest { AreSingles self.now.zones rest.old.list.items }
        requires enough { 8 ≤ length rest.old.list.items }
        ensures gives { LendAsManyBesides self.now.zones core.old rest.old.list.items core.new rest.new.list.items }
        ensures first { rest.new.list.items
            ≡ take (length rest.old.list.items - 8) rest.old.list.items }
    {
        if !rest.ends_in_one_block() {
            self.give_last(known, core, rest, FLUSH);
            return;
        }
        if let Some(block) = self.join_last(known, core, rest, FLUSH_ORDER) {
            let _given = self.give_to(core, block);
        }
    }

    // So many of the frames that came last as a block of the order has leave the list. Those that make
    // up one are handed out as such, and the others are given.
    fn join_last(
        &self,
        known: FirstZone,
        core: &mut ZoneCore,
        rest: &mut FrameList,
        order: u8,
    ) -> Option<ZoneBlock>
        requires known { IsFirstOf self.now.zones known }
        requires core { AreCoresOf self.now.zones core.old }
        requires rest { AreSingles self.now.zones rest.old.list.items }
        requires some { 1 ≤ order }
        requires enough { 2 ^ order ≤ length rest.old.list.items }
        ensures leave { LeaveTheList self.now.zones core.old rest.old.list.items core.new rest.new.list.items result }
        ensures first { rest.new.list.items
            ≡ take (length rest.old.list.items - 2 ^ order) rest.old.list.items }
    {
        if order == 1 {
            let first = self.lift_one(known, rest);
            let second = self.lift_one(known, rest);
            return self.join_either(core, first, second);
        }
        let first = self.join_last(known, core, rest, order - 1);
        let second = self.join_last(known, core, rest, order - 1);
        self.join_or_give(core, first, second)
    }

    // The frame that came last leaves the list.
    #[inline(always)]
    fn lift_one(&self, known: FirstZone, rest: &mut FrameList) -> ZoneBlock
        requires known { IsFirstOf self.now.zones known }
        requires rest { AreSingles self.now.zones rest.old.list.items }
        requires some { 0 < length rest.old.list.items }
        ensures out { IsOutOfItsZone self.now.zones result }
        ensures lifted { (f : SingleFrame) × ((rest.old.list.items ≡ rest.new.list.items ++ f ∷ [])
            × (first_frame_in self.now.zones result ≡ f.frame)) }
        ensures first { rest.new.list.items
            ≡ take (length rest.old.list.items - 1) rest.old.list.items }
    {
        let Some(lifted) = rest.pop() else {
            unreachable!()
        };
        let SingleFrame { frame, seat } = lifted;
        self.block_at(known, frame, 0, seat)
    }

    // The block of both where they are buddies, else they are given.
    #[inline(always)]
    fn join_or_give(
        &self,
        core: &mut ZoneCore,
        first: Option<ZoneBlock>,
        second: Option<ZoneBlock>,
    ) -> Option<ZoneBlock>
        requires core { AreCoresOf self.now.zones core.old }
        requires first { IfSome first (IsOutOfItsZone self.now.zones) }
        requires second { IfSome second (IsOutOfItsZone self.now.zones) }
        ensures { GoBackOrJoin self.now.zones core.old first second core.new result }
    {
        match (first, second) {
            (Some(first), Some(second)) => self.join_either(core, first, second),
            (Some(first), None) => {
                let _given = self.give_to(core, first);
                None
            }
            (None, Some(second)) => {
                let _given = self.give_to(core, second);
                None
            }
            (None, None) => None,
        }
    }

    // The block of both, whichever is the lower one; where they are no buddies, both are given.
    #[inline(always)]
    fn join_either(
        &self,
        core: &mut ZoneCore,
        first: ZoneBlock,
        second: ZoneBlock,
    ) -> Option<ZoneBlock>
        requires core { AreCoresOf self.now.zones core.old }
        requires first { IsOutOfItsZone self.now.zones first }
        requires second { IsOutOfItsZone self.now.zones second }
        ensures { GoBackOrJoin self.now.zones core.old (Some first) (Some second) core.new result }
    {
        match self.zones.join(core, second, first) {
            Ok(block) => Some(block),
            Err((second, first)) => self.join_upward(core, first, second),
        }
    }

    // The block of both, if the first is the lower one; else both are given.
    #[inline(always)]
    fn join_upward(
        &self,
        core: &mut ZoneCore,
        first: ZoneBlock,
        second: ZoneBlock,
    ) -> Option<ZoneBlock>
        requires core { AreCoresOf self.now.zones core.old }
        requires first { IsOutOfItsZone self.now.zones first }
        requires second { IsOutOfItsZone self.now.zones second }
        ensures { GoBackOrJoin self.now.zones core.old (Some first) (Some second) core.new result }
    {
        match self.zones.join(core, first, second) {
            Ok(block) => Some(block),
            Err((first, second)) => {
                let _given = self.give_to(core, first);
                let _given = self.give_to(core, second);
                None
            }
        }
    }
}
