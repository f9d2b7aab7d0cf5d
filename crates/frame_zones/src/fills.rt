//! Takes of several single frames by cores of all zones.

ghost use Rattle.std.specs.Prelude.{◌≡◌, ◌+◌, ◌≤◌, vec_len, vec_capacity};
ghost use Rattle.core_frames.specs.Bounds.{most_in_fill};
ghost use Rattle.frame_zones.specs.Fills.{TakesMoreIn};
ghost use Rattle.frame_zones.specs.Uses.{moves_through};
ghost use Rattle.frame_zones.specs.Zones.{AreCoresOf, StayCoresOf};

use crate::takes::first_zone;
use crate::zones::{ZoneCore, Zones};
use frame_table::Block;

impl Zones {
    /// Takes up to `n` single frames in the zone where takes of order 0 begin, of those that rest with the
    /// core there, and lays them behind the others. Answers the zone and how many. A take of one frame lets
    /// others rest, where its tree has some.
    #[inline(always)]
    pub fn take_more(&self, core: &mut ZoneCore, n: u32, out: &mut Vec<Block>) -> (u32, u32)
        requires core { AreCoresOf self.now core.old }
        requires room { vec_len out.old + n ≤ vec_capacity out.old }
        ensures core { StayCoresOf self.now core.old core.new }
        ensures takes { TakesMoreIn self.now result.0 result.1 n out.old.items out.new.items core.old core.new }
        ensures few { result.1 ≤ n }
        ensures room { vec_capacity out.new ≡ vec_capacity out.old }
        ensures len { vec_len out.new ≡ vec_len out.old + result.1 }
        ensures all_moves { moves_through core.new ≤ moves_through core.old + most_in_fill result.1 }
    {
        let mut stay = core.stays[0];
        let zone = first_zone(&mut stay, core.home, self.zones.len() as u32);
        let place = zone as usize;
        let got = self.zones[place].take_more(&mut core.cores[place], n, out);
        // each frame counts as a take of one
        core.stays[0].left = core.stays[0].left.saturating_sub(got);
        (zone, got)
    }
}
