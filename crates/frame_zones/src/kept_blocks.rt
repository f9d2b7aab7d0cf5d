//! Blocks of zones that a core keeps.

ghost use Rattle.std.specs.Prelude.{◌≡◌, ◌+◌, ◌<◌};
ghost use Rattle.frame_model.specs.Block.{block as block_at};
ghost use Rattle.frame_table.specs.Seats.{block_in};
ghost use Rattle.frame_zones.specs.Keeping.{IsKeptIn, KeepsInZone, RecallsIn, IsThisOut};
ghost use Rattle.frame_zones.specs.Uses.{moves_through};
ghost use Rattle.frame_zones.specs.Zones.{zone_count, AreCoresOf, StayCoresOf, IsOutOfItsZone};

use crate::block::ZoneBlock;
use crate::zones::{ZoneCore, Zones};

impl Zones {
    /// The core keeps the block. The answer is its zone, its first frame counted from the zone's, and
    /// its order.
    pub fn keep(&self, core: &mut ZoneCore, block: ZoneBlock) -> (u32, u32, u8)
        requires core { AreCoresOf self.now core.old }
        requires block { IsOutOfItsZone self.now block }
        ensures core { StayCoresOf self.now core.old core.new }
        ensures keeps { KeepsInZone self.now block.zone (block_in block.block) core.old core.new }
        ensures all_moves { moves_through core.new ≡ moves_through core.old + 1 }
        ensures zone { result.0 ≡ block.zone }
        ensures answer { block_at result.1 result.2 ≡ block_in block.block }
    {
        let ZoneBlock { zone, block } = block;
        let place = zone as usize;
        let (frame, order) = self.zones[place].keep(&mut core.cores[place], block);
        (zone, frame, order)
    }

    /// The block that the core keeps in this zone, which it keeps no more.
    pub fn recall(&self, core: &mut ZoneCore, zone: u32, frame: u32, order: u8) -> ZoneBlock
        requires core { AreCoresOf self.now core.old }
        requires zone { zone < zone_count self.now }
        requires kept { IsKeptIn zone (block_at frame order) core.old }
        ensures core { StayCoresOf self.now core.old core.new }
        ensures recalls { RecallsIn self.now zone (block_at frame order) core.old core.new }
        ensures all_moves { moves_through core.new ≡ moves_through core.old + 1 }
        ensures out { IsThisOut self.now zone (block_at frame order) result }
    {
        let place = zone as usize;
        let block = self.zones[place].recall(&mut core.cores[place], frame, order);
        ZoneBlock { zone, block }
    }
}
