//! Gives of cores of all zones.

ghost use Rattle.std.specs.Prelude.{◌+◌, ◌≤◌};
ghost use Rattle.core_frames.specs.Bounds.{most_in_give};
ghost use Rattle.frame_zones.specs.Zones.{AreCoresOf, StayCoresOf, IsOutOfItsZone};
ghost use Rattle.frame_zones.specs.Uses.{GivesIn, GivesAloneIn, IsGivenFor, MovesAtMost, moves_through};

use crate::block::{GivenBlock, ZoneBlock};
use crate::zones::{ZoneCore, Zones};
use frame_core::HeldBlock;

impl Zones {
    /// Gives the block back, whichever core took it. It always succeeds, and says which one it was.
    #[inline(always)]
    pub fn give(&self, core: &mut ZoneCore, block: ZoneBlock) -> GivenBlock
        requires core { AreCoresOf self.now core.old }
        requires block { IsOutOfItsZone self.now block }
        ensures core { StayCoresOf self.now core.old core.new }
        ensures gives { GivesIn self.now block.zone core.old core.new }
        ensures alone { GivesAloneIn self.now block core.old core.new }
        ensures given { IsGivenFor block result }
        ensures moves { MovesAtMost most_in_give block.zone core.old core.new }
        ensures all_moves { moves_through core.new ≤ moves_through core.old + most_in_give }
    {
        let ZoneBlock { zone, block } = block;
        let given = GivenBlock {
            zone,
            frame: block.frame(),
            order: block.order(),
        };
        let place = zone as usize;
        self.zones[place].give(&mut core.cores[place], block);
        given
    }
}
