//! Where takes through a core begin.

ghost use Rattle.std.specs.Prelude.{◌<◌};
ghost use Rattle.frame_zones.specs.Homes.{MovesHome};
ghost use Rattle.frame_zones.specs.Zones.{zone_count, AreCoresOf};

use crate::zones::{ORDERS, Stay, ZoneCore, Zones};

impl Zones {
    /// Takes of every order through the core begin in this zone from now on.
    pub fn set_home(&self, core: &mut ZoneCore, zone: u32)
        requires core { AreCoresOf self.now core.old }
        requires zone { zone < zone_count self.now }
        ensures core { AreCoresOf self.now core.new }
        ensures home { MovesHome zone core.old core.new }
    {
        core.home = zone;
        core.stays = [Stay::NONE; ORDERS];
    }
}
