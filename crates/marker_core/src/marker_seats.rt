// A marker's steps as its seat sees them, and what lending a view to one makes of the views.
// Whoever calls one of these has its law; none of them does anything.

ghost use Rattle.marker_core.specs.MarkerFacts.{LentWhileOn, MarkerWordsMayBeFound, MarkersAreOk};
ghost use Rattle.marker_core.specs.MarkerLaws.{BitsAreSteps, PollsAreSteps, LooksAreSteps};
ghost use Rattle.marker_core.specs.MarkerLaws.{ClaimsAsAreSteps, FieldsAreSteps, MarksAsAreSteps};
ghost use Rattle.marker_core.specs.MarkerLaws.{SplitsAreSteps, JoinsAreSteps};

/// What a word that a marker reads tells of the objects that it knows.
pub fn marker_words_may_be_found()
    ensures { MarkerWordsMayBeFound }
{}

/// What is true of a marker's view in every state.
pub fn markers_are_ok()
    ensures { MarkersAreOk }
{}

/// While a view is lent, marking goes on.
pub fn lent_while_on()
    ensures { LentWhileOn }
{}

/// To look at a start bit is a step that leaves the word.
pub fn bits_are_steps()
    ensures { BitsAreSteps }
{}

/// To look at the stop word is a step that leaves it.
pub fn polls_are_steps()
    ensures { PollsAreSteps }
{}

/// To look at the header of a known place is a step that leaves it.
pub fn looks_are_steps()
    ensures { LooksAreSteps }
{}

/// A marker's claim is a step that compares the header and, where it is the one read last, sets its
/// traced bit.
pub fn claims_as_are_steps()
    ensures { ClaimsAsAreSteps }
{}

/// To look at a field word of the object in hand is a step that leaves it.
pub fn fields_are_steps()
    ensures { FieldsAreSteps }
{}

/// A marker's mark is a step that sets a bit of the header of the target in hand.
pub fn marks_as_are_steps()
    ensures { MarksAsAreSteps }
{}

/// To lend a view is a step while marking goes on.
pub fn splits_are_steps()
    ensures { SplitsAreSteps }
{}

/// To give a view back that has no hand is a step.
pub fn joins_are_steps()
    ensures { JoinsAreSteps }
{}
