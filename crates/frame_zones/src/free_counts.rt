//! How much is free, in all zones and in one.

ghost use Rattle.std.specs.Prelude.{◌≡◌, ◌+◌, ◌*◌, ◌<◌, ◌≤◌};
ghost use Rattle.frame_words.specs.Geometry.{child_frames};
ghost use Rattle.frame_model.specs.Report.{free_frames};
ghost use Rattle.frame_zones.specs.FreeCounts.{free_frames_in, free_huge_in, HasReadEntries, ReadsIn, IsCountIn};
ghost use Rattle.frame_zones.specs.FreeCounts.{IsFewIn, MovesForEntries, IsExactIn, free_huge_by};
ghost use Rattle.frame_zones.specs.FreeCounts.{IsCountAmong, frames_among, entry_words_among};
ghost use Rattle.frame_zones.specs.Uses.{moves_through};
ghost use Rattle.frame_zones.specs.Zones.{zone_count, AreCoresOf, StayCoresOf, InEach};

use crate::zones::{ZoneCore, Zones};

impl Zones {
    /// How many frames are free in all zones: the sum of what `Allocator::free_frames` counts in each,
    /// one after another.
    pub fn free_frames(&self, core: &mut ZoneCore) -> u64
        requires { AreCoresOf self.now core.old }
        ensures core { StayCoresOf self.now core.old core.new }
        ensures reads { InEach self.now HasReadEntries core.old core.new }
        ensures stays { core.new.stays ≡ core.old.stays }
        ensures sum { IsCountAmong free_frames_in self.now core.new result }
        ensures few { result ≤ frames_among self.now }
        ensures all_moves { moves_through core.new
            ≡ moves_through core.old + entry_words_among self.now }
    {
        let mut sum = 0;
        for zone in 0..self.count() as u32 {
            sum += u64::from(self.free_frames_of(core, zone));
        }
        sum
    }

    /// How many huge frames are free in all zones, in the same way.
    pub fn free_huge(&self, core: &mut ZoneCore) -> u64
        requires { AreCoresOf self.now core.old }
        ensures core { StayCoresOf self.now core.old core.new }
        ensures reads { InEach self.now HasReadEntries core.old core.new }
        ensures stays { core.new.stays ≡ core.old.stays }
        ensures sum { IsCountAmong free_huge_in self.now core.new result }
        ensures few { child_frames * result ≤ frames_among self.now }
        ensures all_moves { moves_through core.new
            ≡ moves_through core.old + entry_words_among self.now }
    {
        let mut sum = 0;
        for zone in 0..self.count() as u32 {
            sum += u64::from(self.free_huge_of(core, zone));
        }
        sum
    }

    /// How many frames are free in this zone, as `Allocator::free_frames` counts them.
    pub fn free_frames_of(&self, core: &mut ZoneCore, zone: u32) -> u32
        requires core { AreCoresOf self.now core.old }
        requires zone { zone < zone_count self.now }
        ensures core { StayCoresOf self.now core.old core.new }
        ensures reads { ReadsIn self.now zone core.old core.new }
        ensures count { IsCountIn free_frames_in self.now zone core.new result }
        ensures few { IsFewIn self.now zone result }
        ensures all_moves { MovesForEntries self.now zone core.old core.new }
        ensures alone { IsExactIn free_frames self.now zone core.old core.new result }
    {
        let place = zone as usize;
        self.zones[place].free_frames(&mut core.cores[place])
    }

    /// How many huge frames are free in this zone, in the same way.
    pub fn free_huge_of(&self, core: &mut ZoneCore, zone: u32) -> u32
        requires core { AreCoresOf self.now core.old }
        requires zone { zone < zone_count self.now }
        ensures core { StayCoresOf self.now core.old core.new }
        ensures reads { ReadsIn self.now zone core.old core.new }
        ensures count { IsCountIn free_huge_in self.now zone core.new result }
        ensures few { IsFewIn self.now zone (child_frames * result) }
        ensures all_moves { MovesForEntries self.now zone core.old core.new }
        ensures alone { IsExactIn free_huge_by self.now zone core.old core.new result }
    {
        let place = zone as usize;
        self.zones[place].free_huge(&mut core.cores[place])
    }
}
