//! What bounds come to, and what would be wrong, and is told: laws, proved as contracts of functions
//! that do nothing.

ghost use Rattle.core_frames.specs.BoundNumbers.{TakeInNumbers, PlaceInNumbers, FillInNumbers};
ghost use Rattle.core_frames.specs.BoundNumbers.{GiveInNumbers, SplitInNumbers, JoinInNumbers, LookInNumbers};
ghost use Rattle.core_frames.specs.BoundNumbers.{TellingInNumbers, TreeInNumbers, DeskMovesTooMuch};
ghost use Rattle.core_frames.specs.Missed.{MissesTheWithheld, NobodyWithholds};
ghost use Rattle.core_frames.specs.Uses.{GivesFreeTheirBlock};
ghost use Rattle.core_frames.specs.Refusals.{OrderIsLawful, OrderIsUnlawful, MovesTooLittle};
ghost use Rattle.core_frames.specs.Refusals.{LossIsUntold, FreeIsRefused, DeskIsRefused, LeftIsRefused};
ghost use Rattle.core_frames.specs.Refusals.{PlaceIsRefused, FreePlaceIsRefused};
ghost use Rattle.core_frames.specs.Refusals.{RangesAreRefused, ClosingIsRefused, NumberIsAnother};
ghost use Rattle.core_frames.specs.WorkedMisses.{MissesAHugeFrame, AreSearched, LooksAtAHugeFrame};
ghost use Rattle.core_frames.specs.WorkedMisses.{FindsAHugeFrame, ReservingWithholds, PayingWithholds};
ghost use Rattle.core_frames.specs.WorkedMisses.{ChargingWithholds, AllRestAtFirst};
ghost use Rattle.core_frames.specs.WrongAnswers.{TakenPastTheEnd, TakenWasHeld, KeptIsClearAtClosing};
ghost use Rattle.core_frames.specs.WrongAnswers.{KeptOverlapAtClosing, KeptIsLostAtClosing};
ghost use Rattle.core_frames.specs.WrongAnswers.{KeptIsClearAtStop, KeptOverlapAtStop};
ghost use Rattle.core_frames.specs.WrongAnswers.{KeptIsLostAtStop, SeatIsElsewhere};
ghost use Rattle.core_frames.specs.WrongAnswers.{SplitIsWrong, JoinIsWrong, CountIsWrong, DeskLends};
ghost use Rattle.core_frames.specs.WrongAnswers.{HabitIsAnother};

use frame_model::every_run_from_an_opening_fits;

/// The bounds on moves are these numbers, so that no part of their formulas can grow unseen; and no call
/// at a desk makes more than its own.
pub fn bounds_are_these()
    ensures take { TakeInNumbers }
    ensures place { PlaceInNumbers }
    ensures fill { FillInNumbers }
    ensures give { GiveInNumbers }
    ensures split { SplitInNumbers }
    ensures join { JoinInNumbers }
    ensures look { LookInNumbers }
    ensures telling { TellingInNumbers }
    ensures tree { TreeInNumbers }
    ensures desk { DeskMovesTooMuch }
{}

/// What a search of all trees may miss, at any moment and wherever others stopped in their calls: where
/// nothing rests with a core, each free block of the order that it did not find lies in a tree that
/// somebody is reserving or has paid frames of, or in a child that somebody has charged. So it misses
/// nothing where all are at rest.
pub fn searches_miss_what_is_withheld()
    ensures withheld { MissesTheWithheld }
    ensures at_rest { NobodyWithholds }
{}

/// Two seats that stopped after their charges withhold the free huge frame of which they have a part, by
/// the law on searches. What a search has looked at then, by each of its reasons.
pub fn worked_searches_miss_a_block()
    ensures missed { MissesAHugeFrame }
    ensures searched { AreSearched }
    ensures huge { LooksAtAHugeFrame }
    ensures not_searched { FindsAHugeFrame }
{
    every_run_from_an_opening_fits();
    searches_miss_what_is_withheld();
}

/// A view withholds blocks of its tree or its child and no others, by each of its parts; and who has
/// nothing in flight is at rest.
pub fn worked_views_withhold()
    ensures reserving { ReservingWithholds }
    ensures paying { PayingWithholds }
    ensures charging { ChargingWithholds }
    ensures at_rest { AllRestAtFirst }
{}

/// No take that is refused says what is wrong: none that the order is bad but one above 9, and each of
/// those; none that it found no block, without as many moves as there are trees, or that it was
/// contended, without a loss; none to one core of all that knows a free one; nor such of just one block;
/// and none through a desk either.
pub fn wrong_refused_takes_are_not_told()
    ensures order_is_lawful { OrderIsLawful }
    ensures order_is_unlawful { OrderIsUnlawful }
    ensures moves { MovesTooLittle }
    ensures losses { LossIsUntold }
    ensures free { FreeIsRefused }
    ensures place { PlaceIsRefused }
    ensures free_place { FreePlaceIsRefused }
    ensures desk { DeskIsRefused }
{}

/// No call says of a refusal, or of the cores of an opening, what is wrong: no adoption that a block is
/// not held which is left; no opening that ranges are bad which may be held back; no closing that
/// memory is wanting where a core is missing; and no opening a core of another number.
pub fn wrong_refusals_are_not_told()
    ensures left { LeftIsRefused }
    ensures ranges { RangesAreRefused }
    ensures closing { ClosingIsRefused }
    ensures numbers { NumberIsAnother }
{}

/// No call answers what is wrong: no take a block that ends past the memory, or, to one core of all, one
/// that was held; no closing an image in which a kept block is not held, shares a frame with another, or
/// is lost once the image is rebuilt; no stop one in which this is so of a block that the last core
/// keeps, or one whose words fit nothing that this core has.
pub fn wrong_answers_are_not_told()
    ensures past_the_end { TakenPastTheEnd }
    ensures held { TakenWasHeld }
    ensures clear { KeptIsClearAtClosing }
    ensures overlap { KeptOverlapAtClosing }
    ensures lost { KeptIsLostAtClosing }
    ensures clear_at_stop { KeptIsClearAtStop }
    ensures overlap_at_stop { KeptOverlapAtStop }
    ensures lost_at_stop { KeptIsLostAtStop }
    ensures elsewhere { SeatIsElsewhere }
{}

/// Where a core steps alone and knows the words, a give makes its block free, held before, and leaves every
/// other bit and flag as it was.
pub fn gives_free_their_block()
    ensures { GivesFreeTheirBlock }
{}

/// No split, no join and no count answers what is wrong: no blocks that are not the two halves of the
/// block, not the block of both, or not out, and no number that was not read, or of more than there is;
/// no call at a desk lends; and none that keeps a core's habit changes it.
pub fn wrong_halves_and_counts_are_not_told()
    ensures split { SplitIsWrong }
    ensures join { JoinIsWrong }
    ensures counts { CountIsWrong }
    ensures desk { DeskLends }
    ensures habit { HabitIsAnother }
{}
