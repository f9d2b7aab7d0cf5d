//! How many zones there are, and where takes through a core begin.

ghost use Rattle.std.specs.Prelude.{◌≡◌, ◌<◌, IfOk, IfErr};
ghost use Rattle.zone_slots.specs.Homes.{zones_by, home_by, MovesHomeTo, HasNoZone};

use crate::core_state::CoreState;
use frame_words::Fault;

impl CoreState {
    /// How many zones the memory has.
    pub fn zones(&self) -> u32
        ensures { result ≡ zones_by self.now }
    {
        self.shared.zones.count() as u32
    }

    /// The home zone, where takes begin, unless those of the order stay in another one for a while.
    pub fn home(&self) -> u32
        ensures home { result ≡ home_by self.now }
        ensures zone { result < zones_by self.now }
    {
        self.core.home
    }

    /// Takes of every order begin in the zone of this number from now on. Refused as `BadRange` where
    /// there is no such zone.
    pub fn set_home(&mut self, zone: u32) -> Result<(), Fault>
        ensures set { IfOk result (λ _. MovesHomeTo zone self.old self.new) }
        ensures refused { IfErr result (HasNoZone zone self.old self.new) }
    {
        if zone >= self.zones() {
            return Err(Fault::BadRange);
        }
        self.shared.zones.set_home(&mut self.core, zone);
        Ok(())
    }
}
