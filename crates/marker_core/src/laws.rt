// The laws of the machine. Whoever calls one of these has its law; none of them does anything.

ghost use Rattle.marker_core.specs.Laws.{ReachOverIsLeast, ClosesByWords, SettledHasEnded};
ghost use Rattle.marker_core.specs.Laws.{StepsKeep, RunsKeep, NewAndReadMayBeKept, EndsMarkedOut};
ghost use Rattle.marker_core.specs.Laws.{IdleIsOk};

use gc_graph::reach_is_least;

/// What roots reach over bodies is the least closed set of places that holds them.
pub fn reach_over_is_least()
    ensures { ReachOverIsLeast }
{
    reach_is_least();
}

/// Over the graph that bodies stand for, a set is closed once by looking at the words of its bodies.
pub fn closes_by_words()
    ensures { ClosesByWords }
{}

/// The state with which all begins is one of those of which all this is true.
pub fn idle_is_ok()
    ensures { IdleIsOk }
{}

/// Where marking goes on with no hand, nothing that waits for its mark and no grey body, and each
/// noted pair has a key that is null or unmarked, or a value that is null or marked: the marked set is closed and
/// lies within what may be kept, and where it holds some roots it holds what they reach.
pub fn settled_has_ended()
    ensures { SettledHasEnded }
{
    reach_is_least();
}

/// Each step of the mutator and of the markers keeps what is true of every state.
pub fn every_step_keeps()
    ensures { StepsKeep }
{
    reach_is_least();
}

/// So does each list of steps, whoever takes them and in whichever order.
pub fn every_run_keeps()
    ensures { RunsKeep }
{
    reach_is_least();
}

/// While marking goes on, a new body may be kept, and so may what a weak read gave.
pub fn new_and_read_may_be_kept()
    ensures { NewAndReadMayBeKept }
{
    reach_is_least();
}

/// Where marking ended, the marked set is closed, each marked body is traced, and each other is dead.
pub fn ends_marked_out()
    ensures { EndsMarkedOut }
{}
