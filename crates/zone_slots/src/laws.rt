//! What would be wrong, and is told: laws, proved as contracts of a function that does nothing.

ghost use Rattle.zone_slots.specs.WrongPlaces.{PlaceFromBoot, PlaceInAHole, PlaceElsewhere, KnownPlaceIsRefused};
ghost use Rattle.zone_slots.specs.WrongPlaces.{PlaceLossIsUntold, PlaceContendedForNothing, PlaceOrderIsAnother};
ghost use Rattle.zone_slots.specs.WrongTakes.{TakenFromBoot, TakenFromAHole, TakenOfTwoZones};
ghost use Rattle.zone_slots.specs.WrongTakes.{NoneIsUnsought, ContendedForNothing, OrderIsAnother};

/// No take through a core of all zones says what is wrong. It answers no block with a frame that the
/// opening of a fresh memory held back, nor with one that no zone has; and what takes answer of two
/// zones of one memory has no frame's number in common. It does not say that it found no block after
/// fewer moves in a zone than it has trees, or with a lost exchange; nor that it was contended, with no
/// lost exchange and no block counted that found no slot; nor is it refused for its order up to 9.
pub fn wrong_takes_are_not_told()
    ensures boot_frames { TakenFromBoot }
    ensures holes { TakenFromAHole }
    ensures two_zones { TakenOfTwoZones }
    ensures unsought { NoneIsUnsought }
    ensures contended { ContendedForNothing }
    ensures order { OrderIsAnother }
{}

/// No take of just one block says what is wrong. It answers none with a frame that the opening of a fresh memory
/// held back, nor one with a frame that no zone has, and in a zone that does not have its first frame nothing
/// turns. Unless it counts a block that found no slot, it is not refused where the core alone steps in its zone
/// and knows that it is free. It does not say that there is no block with a lost exchange; nor that it was
/// contended, with no lost exchange and no block counted that found no slot; nor is it refused for its order up
/// to 9.
pub fn wrong_takes_of_one_block_are_not_told()
    ensures boot_frames { PlaceFromBoot }
    ensures holes { PlaceInAHole }
    ensures elsewhere { PlaceElsewhere }
    ensures free { KnownPlaceIsRefused }
    ensures losses { PlaceLossIsUntold }
    ensures contended { PlaceContendedForNothing }
    ensures order { PlaceOrderIsAnother }
{}
