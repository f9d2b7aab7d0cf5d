//! What would be wrong, and is told: laws, proved as contracts of functions that do nothing.

ghost use Rattle.llfree_trace.specs.WorkedOutcome.{TwoCoresAreWorkedOut};
ghost use Rattle.llfree_trace.specs.WrongRuns.{EachGivesItsOwn, FirstTakenIsGivenFirst, FrameIsShared, GiveIsRefused, ListOverlaps};
ghost use Rattle.llfree_trace.specs.WrongRuns.{OtherBlockIsGiven, OtherFramesAreHeld, OtherIsAnswered};
ghost use Rattle.llfree_trace.specs.WrongRuns.{OtherKind, TakeIsRefused, WhatMovedIsGiven, WrongBlockIsTaken};
ghost use Rattle.llfree_trace.specs.WrongTexts.{NoCommandIsDone, NoTraceIsShown, OtherImageIsShown};
ghost use Rattle.llfree_trace.specs.WrongTexts.{OtherIsDone, OtherIsMade, OtherIsShown};
ghost use Rattle.llfree_trace.specs.WrongTexts.{OtherPartIsRefused, OtherRecordIsRefused};
ghost use Rattle.llfree_trace.specs.WrongTexts.{WrongFault, WrongReading, WrongRefusalIsShown};
ghost use Rattle.llfree_trace.specs.WrongTexts.{WrongSuccess};

/// No outcome of a trace answers a record by a reply of another kind, a take by a block of another
/// order or by frames that are held, a give by another block than the oldest that is meant, or any of
/// them by a refusal without its reason; and none goes on with a list two of whose blocks share a frame.
pub fn wrong_replies_are_not_told()
    ensures kind { OtherKind }
    ensures taken { WrongBlockIsTaken }
    ensures take_refused { TakeIsRefused }
    ensures given { OtherBlockIsGiven }
    ensures give_refused { GiveIsRefused }
    ensures overlap { ListOverlaps }
{}

/// Of two blocks under one label the first taken is given first; no core gives what another took, unless it
/// was moved to it.
pub fn labels_are_given_in_order()
    ensures first { FirstTakenIsGivenFirst }
    ensures own { EachGivesItsOwn }
    ensures moved { WhatMovedIsGiven }
{}

/// No outcome of a trace has an answer too many or too few, or leaves a frame in two blocks; and no image
/// of one holds a frame too many or too few.
pub fn wrong_outcomes_are_not_told()
    ensures answers { OtherIsAnswered }
    ensures shared { FrameIsShared }
    ensures held { OtherFramesAreHeld }
{}

/// No text is shown of what says none, or that is no outcome's, and no record is refused but the lowest.
pub fn wrong_texts_are_not_shown()
    ensures no_trace { NoTraceIsShown }
    ensures shown { OtherIsShown }
    ensures cores { WrongRefusalIsShown }
    ensures image { OtherImageIsShown }
    ensures record_refused { OtherRecordIsRefused }
    ensures part_refused { OtherPartIsRefused }
{}

/// No call succeeds, or is refused, but as its bytes and its devices say; and no words do what they
/// don't name.
pub fn wrong_ends_are_not_told()
    ensures success { WrongSuccess }
    ensures reading { WrongReading }
    ensures fault { WrongFault }
    ensures made { OtherIsMade }
    ensures no_command { NoCommandIsDone }
    ensures done { OtherIsDone }
{}

/// In a memory of one child, two cores may take, move and give so. Not so with a frame that the other has, a
/// give of the newer block, an answer too few, or other frames held at the end.
pub fn two_cores_are_worked_out()
    ensures { TwoCoresAreWorkedOut }
{}
