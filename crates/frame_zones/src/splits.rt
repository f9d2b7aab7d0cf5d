//! Splits of blocks of zones.

ghost use Rattle.std.specs.Prelude.{◌+◌, ◌≤◌};
ghost use Rattle.core_frames.specs.Bounds.{most_in_split};
ghost use Rattle.frame_zones.specs.Zones.{AreCoresOf, StayCoresOf, IsOutOfItsZone};
ghost use Rattle.frame_zones.specs.Splits.{SplitsIn};
ghost use Rattle.frame_zones.specs.Uses.{MovesAtMost, moves_through};

use crate::block::ZoneBlock;
use crate::zones::{ZoneCore, Zones};

impl Zones {
    /// The halves of the block, the lower first. A block of order 0 has none, and is handed back.
    pub fn split(
        &self,
        core: &mut ZoneCore,
        block: ZoneBlock,
    ) -> Result<(ZoneBlock, ZoneBlock), ZoneBlock>
        requires core { AreCoresOf self.now core.old }
        requires block { IsOutOfItsZone self.now block }
        ensures core { StayCoresOf self.now core.old core.new }
        ensures splits { SplitsIn self.now block result core.old core.new }
        ensures moves { MovesAtMost most_in_split block.zone core.old core.new }
        ensures all_moves { moves_through core.new ≤ moves_through core.old + most_in_split }
    {
        let ZoneBlock { zone, block } = block;
        let place = zone as usize;
        match self.zones[place].split(&mut core.cores[place], block) {
            Ok((first, second)) => Ok((
                ZoneBlock { zone, block: first },
                ZoneBlock {
                    zone,
                    block: second,
                },
            )),
            Err(block) => Err(ZoneBlock { zone, block }),
        }
    }
}
