// The mutator's steps as its seat sees them: a function of the word found, and one of the view.
// Whoever calls one of these has its law; none of them does anything.

ghost use Rattle.marker_core.specs.SeatFacts.{WordsMayBeFound, ViewsAreOk};
ghost use Rattle.marker_core.specs.SeatLaws.{LoadsAreSteps, FillsAreSteps, StoresAreSteps};
ghost use Rattle.marker_core.specs.SeatLaws.{PublishesAreSteps, RetractsAreSteps, MarksAreSteps};
ghost use Rattle.marker_core.specs.SeatLaws.{ClaimsAreSteps, UnmarksAreSteps};
ghost use Rattle.marker_core.specs.SeatLaws.{BeginsAreSteps, StopsAreSteps};

/// What a word that the seat reads tells of the bodies and their marks.
pub fn words_may_be_found()
    ensures { WordsMayBeFound }
{}

/// What is true of the mutator's view in every state.
pub fn views_are_ok()
    ensures { ViewsAreOk }
{}

/// A load is a step that leaves the word.
pub fn loads_are_steps()
    ensures { LoadsAreSteps }
{}

/// A fill is a step that overwrites a word outside the objects.
pub fn fills_are_steps()
    ensures { FillsAreSteps }
{}

/// A store is a step that overwrites a field word.
pub fn stores_are_steps()
    ensures { StoresAreSteps }
{}

/// A publication is a step that sets a start bit, where the object's words were filled.
pub fn publishes_are_steps()
    ensures { PublishesAreSteps }
{}

/// A retraction is a step that clears a start bit.
pub fn retracts_are_steps()
    ensures { RetractsAreSteps }
{}

/// A mark is a step that sets a bit of the header.
pub fn marks_are_steps()
    ensures { MarksAreSteps }
{}

/// A claim is a step that compares the header and, where it is grey, sets its traced bit.
pub fn claims_are_steps()
    ensures { ClaimsAreSteps }
{}

/// Clearing an object's marks is a step that clears both bits of its header.
pub fn unmarks_are_steps()
    ensures { UnmarksAreSteps }
{}

/// To begin marking is a step that clears the stop word.
pub fn begins_are_steps()
    ensures { BeginsAreSteps }
{}

/// To stop markers, or to end marking where none is out, is a step that sets the stop word.
pub fn stops_are_steps()
    ensures { StopsAreSteps }
{}
