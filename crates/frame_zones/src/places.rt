//! Takes of just one block by cores of all zones.

ghost use Rattle.frame_zones.specs.Places.{TakesPlaceAmong, MovesForPlace};
ghost use Rattle.frame_zones.specs.Zones.{AreCoresOf, StayCoresOf};

use crate::block::ZoneBlock;
use crate::zones::{ZoneCore, Zones};
use frame_words::{HUGE_ORDER, TakeFault};

impl Zones {
    /// Takes the block of `2^order` frames that begins at `frame`, by its number among those of all zones, where all
    /// of them are free. No other is looked for: `NoBlock` also where it is not aligned to its size, or no zone has
    /// all of it. No memory is needed, and nobody waits.
    pub fn take_at(
        &self,
        core: &mut ZoneCore,
        frame: u64,
        order: u8,
    ) -> Result<ZoneBlock, TakeFault>
        requires { AreCoresOf self.now core.old }
        ensures core { StayCoresOf self.now core.old core.new }
        ensures takes { TakesPlaceAmong self.now frame order result core.old core.new }
        ensures all_moves { MovesForPlace self.now frame core.old core.new }
    {
        if order > HUGE_ORDER {
            return Err(TakeFault::BadOrder);
        }
        let Some((zone, local)) = self.zone_of(core.home, frame) else {
            return Err(TakeFault::NoBlock);
        };
        let place = zone as usize;
        match self.zones[place].take_at(&mut core.cores[place], local, order) {
            Ok(block) => Ok(ZoneBlock { zone, block }),
            Err(fault) => Err(fault),
        }
    }
}
