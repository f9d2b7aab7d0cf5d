//! Joins of blocks of zones.

ghost use Rattle.std.specs.Prelude.{◌+◌, ◌≤◌};
ghost use Rattle.core_frames.specs.Bounds.{most_in_join};
ghost use Rattle.frame_zones.specs.Zones.{AreCoresOf, StayCoresOf, IsOutOfItsZone};
ghost use Rattle.frame_zones.specs.Joins.{JoinsIn};
ghost use Rattle.frame_zones.specs.Uses.{MovesAtMost, moves_through};

use crate::block::ZoneBlock;
use crate::zones::{ZoneCore, Zones};

impl Zones {
    /// The block of two buddies below order 8, the lower first, which are out no more. Any other two
    /// are handed back. No word is written.
    #[inline(always)]
    pub fn join(
        &self,
        core: &mut ZoneCore,
        lower: ZoneBlock,
        upper: ZoneBlock,
    ) -> Result<ZoneBlock, (ZoneBlock, ZoneBlock)>
        requires core { AreCoresOf self.now core.old }
        requires lower { IsOutOfItsZone self.now lower }
        requires upper { IsOutOfItsZone self.now upper }
        ensures core { StayCoresOf self.now core.old core.new }
        ensures joins { JoinsIn self.now lower upper result core.old core.new }
        ensures moves { MovesAtMost most_in_join lower.zone core.old core.new }
        ensures all_moves { moves_through core.new ≤ moves_through core.old + most_in_join }
    {
        if lower.zone != upper.zone {
            return Err((lower, upper));
        }
        let ZoneBlock { zone, block: first } = lower;
        let ZoneBlock {
            zone: _,
            block: second,
        } = upper;
        let place = zone as usize;
        match self.zones[place].join(&mut core.cores[place], first, second) {
            Ok(block) => Ok(ZoneBlock { zone, block }),
            Err((first, second)) => Err((
                ZoneBlock { zone, block: first },
                ZoneBlock {
                    zone,
                    block: second,
                },
            )),
        }
    }
}
