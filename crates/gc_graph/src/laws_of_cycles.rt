// The laws of a collection's commands, as in laws.rt.

ghost use Rattle.gc_graph.specs.ClearingLaw.{ClearsNothingElse};
ghost use Rattle.gc_graph.specs.CountsLaw.{PausesCountNodes, StepsCountLines};
ghost use Rattle.gc_graph.specs.CycleLaw.{
  CyclesGoInOrder,
  StepsTellWhatIsLeft,
  FinishCountsOnce,
  NowCountsOnce,
  HitsAreKept,
  ClearsLiveHolders,
  LastRegisteredRunsFirst,
};

/// `gc start` and `gc now` are refused while marking goes on, and `gc step` and `gc finish` while
/// none does; what the stack holds is asked after that.
pub fn cycles_go_in_order()
    ensures { CyclesGoInOrder }
{}

/// A step is done just where it traced fewer objects than were asked for.
pub fn steps_tell_what_is_left()
    ensures { StepsTellWhatIsLeft }
{}

/// Each object that a pause tells as live was traced once in its collection, and there is no crew
/// without markers.
pub fn pauses_count_once()
    ensures finish { FinishCountsOnce }
    ensures now { NowCountsOnce }
{}

/// A conservative pause keeps each object that the stack hits.
pub fn hits_are_kept()
    ensures { HitsAreKept }
{}

/// Weak clearing leaves the fields of nodes that aren't live, which prefinalizers see.
pub fn live_holders_are_cleared()
    ensures { ClearsLiveHolders }
{}

/// Of a live node weak clearing makes just the weak fields and pairs null that lose their node, and of
/// the weak slots just those that name a dead node.
pub fn weak_clearing_spares_the_live()
    ensures { ClearsNothingElse }
{}

/// Prefinalizers of dead nodes run, the last that was registered first.
pub fn last_registered_runs_first()
    ensures { LastRegisteredRunsFirst }
{}

/// A step counts the lines that it tells: pauses, finalisations and full outcomes, and itself as one
/// command.
pub fn steps_count_their_lines()
    ensures { StepsCountLines }
{}

/// The line of a pause tells how many nodes live after it, and how many it condemned.
pub fn pauses_count_nodes()
    ensures { PausesCountNodes }
{}
