//! What holds of every block of zones and of all moves there: laws, proved as contracts of functions that do
//! nothing.

ghost use Rattle.std.specs.Prelude.{◌≢◌};
ghost use Rattle.frame_zones.specs.Zones.{IsOutOfItsZone};
ghost use Rattle.frame_zones.specs.MoveBounds.{TakeInZoneInNumbers, PlaceInZoneInNumbers};
ghost use Rattle.frame_zones.specs.MoveBounds.{TakeMovesTooMuch, PlaceMovesTooMuch, ZoneMovesTooMuch};
ghost use Rattle.frame_zones.specs.Laws.{OwnsInZone, LiesInZone, AreFramesApart};
ghost use Rattle.frame_zones.specs.Stays.{StayInNumbers};

use crate::block::ZoneBlock;
use crate::zones::Zones;

/// A block that is out owns just itself in its zone, and lies there: so blocks of two zones share no
/// frame.
pub fn blocks_lie_in_zones(zones: &Zones, one: &ZoneBlock, two: &ZoneBlock)
    requires one { IsOutOfItsZone zones.now one.now }
    requires two { IsOutOfItsZone zones.now two.now }
    ensures owns { OwnsInZone zones.now one.now }
    ensures inside { LiesInZone zones.now one.now }
    ensures apart { one.now.zone ≢ two.now.zone → AreFramesApart zones.now one.now two.now }
{
    let (_, _, _) = (zones, one, two);
}

/// The bounds on moves of a take in a zone, and of one of just one block, are these numbers; and no take, give
/// or split is said to keep to a bound that it does not.
pub fn bounds_in_zones_are_these()
    ensures take { TakeInZoneInNumbers }
    ensures place { PlaceInZoneInNumbers }
    ensures within { TakeMovesTooMuch }
    ensures for_place { PlaceMovesTooMuch }
    ensures at_most { ZoneMovesTooMuch }
{}

/// In a zone that served one the next 1,024 takes of an order begin, and the one behind them at home, whatever is
/// given, split, kept or counted between them.
pub fn takes_come_home()
    ensures { StayInNumbers }
{}
