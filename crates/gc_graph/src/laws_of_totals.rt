// The laws of what is counted and told in totals, as in laws.rt.

ghost use Rattle.gc_graph.specs.HeldLaw.{EndsTellWhatIsHeld, StatsTellWhatIsHeld};
ghost use Rattle.gc_graph.specs.TotalsLaw.{JoinsTellTheirTime, RunsCountCommands};

/// A run counts each of its commands.
pub fn runs_count_commands()
    ensures { RunsCountCommands }
{}

/// The totals that a thread is told are those after as many commands as they tell. None of them is
/// older than any start of threads before the join, none is later than the join, and what is told
/// to one thread later is no older.
pub fn totals_are_of_their_time()
    ensures { JoinsTellTheirTime }
{}

/// A `stat` and the end of a report tell how many objects are not finalised, how many words these
/// have together, and how many pages have one of their words. A summary tells the objects and the
/// words that the end would tell.
pub fn counts_tell_what_is_held()
    ensures stats { StatsTellWhatIsHeld }
    ensures ends { EndsTellWhatIsHeld }
{}
