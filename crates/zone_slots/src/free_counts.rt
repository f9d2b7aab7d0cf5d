//! How much is free, in all zones and in one: sums over what the entries of the children count.

ghost use Rattle.frame_zones.specs.Zones.{AreCoresOf};
ghost use Rattle.zone_slots.specs.FreeCounts.{CountsFramesIn, CountsHugeIn, CountsFrames, CountsHuge};
ghost use Rattle.zone_slots.specs.FreeCounts.{CountsFramesAt, CountsHugeAt, IfThereIs, CountsFramesOf, CountsHugeOf};

use crate::core_state::CoreState;
use crate::memory::Memory;
use frame_zones::ZoneCore;

impl CoreState {
    /// How many frames are free in all zones. Beside others what is read is of different times, and
    /// frames that a core is about to take or to give count as held; where nobody else steps it is
    /// exact. No memory is needed, and nobody waits.
    pub fn free_frames(&mut self) -> u32
        ensures { CountsFrames result self.old self.new }
    {
        self.shared.frames_in(&mut self.core)
    }

    /// How many huge frames are free in all zones, that is children of which all frames are, in the same
    /// way.
    pub fn free_huge(&mut self) -> u32
        ensures { CountsHuge result self.old self.new }
    {
        self.shared.huge_in(&mut self.core)
    }

    /// How many frames are free in the zone of this number, in the same way; 0 where there is no such
    /// zone.
    pub fn free_frames_of(&mut self, zone: u32) -> u32
        ensures { CountsFramesOf zone result self.old self.new }
    {
        self.shared.frames_of(&mut self.core, zone)
    }

    /// How many huge frames are free in the zone of this number, in the same way.
    pub fn free_huge_of(&mut self, zone: u32) -> u32
        ensures { CountsHugeOf zone result self.old self.new }
    {
        self.shared.huge_of(&mut self.core, zone)
    }
}

impl Memory {
    fn frames_in(&self, core: &mut ZoneCore) -> u32
        requires { AreCoresOf self.now.zones core.old }
        ensures core { AreCoresOf self.now.zones core.new }
        ensures counts { CountsFramesIn self.now.zones result core.old core.new }
    {
        self.zones.free_frames(core) as u32
    }

    fn huge_in(&self, core: &mut ZoneCore) -> u32
        requires { AreCoresOf self.now.zones core.old }
        ensures core { AreCoresOf self.now.zones core.new }
        ensures counts { CountsHugeIn self.now.zones result core.old core.new }
    {
        self.zones.free_huge(core) as u32
    }

    fn frames_of(&self, core: &mut ZoneCore, zone: u32) -> u32
        requires { AreCoresOf self.now.zones core.old }
        ensures core { AreCoresOf self.now.zones core.new }
        ensures counts { IfThereIs CountsFramesAt self.now.zones zone result core.old core.new }
    {
        if zone as usize >= self.zones.count() {
            return 0;
        }
        self.zones.free_frames_of(core, zone)
    }

    fn huge_of(&self, core: &mut ZoneCore, zone: u32) -> u32
        requires { AreCoresOf self.now.zones core.old }
        ensures core { AreCoresOf self.now.zones core.new }
        ensures counts { IfThereIs CountsHugeAt self.now.zones zone result core.old core.new }
    {
        if zone as usize >= self.zones.count() {
            return 0;
        }
        self.zones.free_huge_of(core, zone)
    }
}
