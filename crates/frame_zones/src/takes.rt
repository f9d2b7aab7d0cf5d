//! Takes of cores of all zones.

ghost use Rattle.std.specs.Prelude.{◌≡◌, ◌+◌, ◌<◌, ◌≤◌, ◌||◌};
ghost use Rattle.frame_words.specs.Geometry.{huge_order};
ghost use Rattle.frame_zones.specs.Faults.{is_contended};
ghost use Rattle.frame_zones.specs.Stays.{TakesBeginIn, IsUsed, BeginsAndStays, GoesPast};
ghost use Rattle.frame_zones.specs.Zones.{zone_count, AreCoresOf, StayCoresOf};
ghost use Rattle.frame_zones.specs.Uses.{TakesAmong, TakesIn, TakesOn, moves_through, most_moves_among};

use crate::block::ZoneBlock;
use crate::zones::{Stay, ZoneCore, Zones};
use frame_words::{HUGE_ORDER, TakeFault};

/// How many takes of an order begin in a zone that served one, where the home had none, before one looks
/// at home again.
const STAYS: u32 = 1024;

impl Zones {
    /// Takes a block of `2^order` frames: of the core's home zone, else of the next one that has
    /// such a block, where the takes of the order that follow begin for a while.
    #[inline(always)]
    pub fn take(&self, core: &mut ZoneCore, order: u8) -> Result<ZoneBlock, TakeFault>
        requires { AreCoresOf self.now core.old }
        ensures core { StayCoresOf self.now core.old core.new }
        ensures takes { TakesAmong self.now order result core.old core.new }
        ensures stays { BeginsAndStays self.now order result core.old core.new }
        ensures all_moves { moves_through core.new ≤ moves_through core.old + most_moves_among self.now }
    {
        if order > HUGE_ORDER {
            return Err(TakeFault::BadOrder);
        }
        let first = first_zone(
            &mut core.stays[order as usize],
            core.home,
            self.zones.len() as u32,
        );
        match self.take_in(core, first, order) {
            Ok(block) => Ok(block),
            Err(fault) => self.take_elsewhere(core, order, first, or_contended(false, fault)),
        }
    }

    // The first zone had none, and an exchange was lost there or not: the others in turn. They stand apart, so
    // that a take in the first zone keeps what it works with in registers.
    #[inline(never)]
    fn take_elsewhere(
        &self,
        core: &mut ZoneCore,
        order: u8,
        first: u32,
        lost: bool,
    ) -> Result<ZoneBlock, TakeFault>
        requires core { AreCoresOf self.now core.old }
        requires order { order ≤ huge_order }
        requires first { first < zone_count self.now }
        ensures core { StayCoresOf self.now core.old core.new }
        ensures takes { TakesOn self.now order first lost result core.old core.new }
        ensures stays { GoesPast order first result core.old core.new }
    {
        let count = self.zones.len() as u32;
        let mut contended = lost;
        for zone in first + 1..count {
            match self.take_in(core, zone, order) {
                Ok(block) => {
                    core.stays[order as usize] = Stay { zone, left: STAYS };
                    return Ok(block);
                }
                Err(fault) => contended = or_contended(contended, fault),
            }
        }
        for zone in 0..first {
            match self.take_in(core, zone, order) {
                Ok(block) => {
                    core.stays[order as usize] = Stay { zone, left: STAYS };
                    return Ok(block);
                }
                Err(fault) => contended = or_contended(contended, fault),
            }
        }
        if contended {
            Err(TakeFault::Contended)
        } else {
            Err(TakeFault::NoBlock)
        }
    }

    // Takes a block of this zone alone.
    #[inline(always)]
    fn take_in(&self, core: &mut ZoneCore, zone: u32, order: u8) -> Result<ZoneBlock, TakeFault>
        requires core { AreCoresOf self.now core.old }
        requires zone { zone < zone_count self.now }
        ensures core { StayCoresOf self.now core.old core.new }
        ensures takes { TakesIn self.now zone order result core.old core.new }
        ensures stays { core.new.stays ≡ core.old.stays }
    {
        let place = zone as usize;
        match self.zones[place].take(&mut core.cores[place], order) {
            Ok(block) => Ok(ZoneBlock { zone, block }),
            Err(fault) => Err(fault),
        }
    }
}

// Where a take begins, of so many zones.
#[inline(always)]
pub(crate) fn first_zone(stay: &mut Stay, home: u32, count: u32) -> u32
    requires { home < count }
    ensures zone { result < count }
    ensures begins { TakesBeginIn count home stay.old result }
    ensures stay { IsUsed count stay.old stay.new }
{
    if stay.left == 0 || stay.zone >= count {
        return home;
    }
    stay.left -= 1;
    stay.zone
}

// Whether an exchange was lost before or now.
fn or_contended(contended: bool, fault: TakeFault) -> bool
    ensures { result ≡ contended || is_contended fault }
{
    contended || fault == TakeFault::Contended
}
