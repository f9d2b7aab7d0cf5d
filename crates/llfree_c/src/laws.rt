//! What would be wrong, and is neither answered nor left: laws, proved as contracts of functions that do
//! nothing.

ghost use Rattle.llfree_c.specs.WrongCalls.{CountIsTooHigh, NoBlockIsUnsought, NumberIsOfAHole};
ghost use Rattle.llfree_c.specs.WrongCalls.{HalvesAreRefusedForNothing, SplitIsRefusedForNothing};
ghost use Rattle.llfree_c.specs.WrongCalls.{PartsAreRefusedForNothing, FrameIsRefusedForNothing};
ghost use Rattle.llfree_c.specs.WrongImages.{BootFrameIsClearInImage, CountersAreOff, ImageIsOfNoState};
ghost use Rattle.llfree_c.specs.WrongImages.{ZoneStandsAtAnothersPlace};

/// No stop leaves a wrong image, neither of an allocator nor of words alone: none with a frame held that is in
/// no block of the views at the stop, or clear that is in one; none with a frame clear that nobody is ever
/// given; none with a counter that is off. Nor is one of all zones left with the numbers of another zone at the
/// place of one whose image they are not.
pub fn wrong_images_are_not_left()
    ensures state { ImageIsOfNoState }
    ensures boot_frame { BootFrameIsClearInImage }
    ensures counters { CountersAreOff }
    ensures zones { ZoneStandsAtAnothersPlace }
{}

/// No call answers what is wrong: no take a block with a frame in a hole, or that none was found after fewer
/// moves in a zone than it has trees; no count is above all frames; and no split and no take of a single frame is
/// refused for what is not so.
pub fn wrong_answers_are_not_given()
    ensures holes { NumberIsOfAHole }
    ensures unsought { NoBlockIsUnsought }
    ensures counts { CountIsTooHigh }
    ensures splits { SplitIsRefusedForNothing }
    ensures halves { HalvesAreRefusedForNothing }
    ensures parts { PartsAreRefusedForNothing }
    ensures frames { FrameIsRefusedForNothing }
{}
