// The laws of the definitions. Whoever calls one of these has its law; none of them does anything.

ghost use Rattle.gc_graph.specs.ActionLaw.{ActionsLeaveNodes};
ghost use Rattle.gc_graph.specs.HistoryLaw.{RepliesAreOfOneThread, RunsAreReplayed};
ghost use Rattle.gc_graph.specs.MayLaw.{StartsHaveStarted, CollectionsHaveStarted, MayIsBounded, PauseBoundsMeet};
ghost use Rattle.gc_graph.specs.PlacementLaw.{PagesHaveOneBucket, PlacementIsFree, SweepsFinaliseDead};
ghost use Rattle.gc_graph.specs.ReadBack.{LinesReadBack, ReportReadsBack};
ghost use Rattle.gc_graph.specs.RefusalLaw.{RefusedLeavesAll, MemoryLeavesAll, FullLeavesRest};
ghost use Rattle.gc_graph.specs.RefusalsExactLaw.{RefusedForTheFirstReason};
ghost use Rattle.gc_graph.specs.ScriptLaw.{TextsAreJudged, ScriptsAreInRanges};
ghost use Rattle.gc_graph.specs.ScriptLaw.{WeakCallbacksAreOfVersionTwo};
ghost use Rattle.gc_graph.specs.ValidLaw.{EmptyIsValid, OrdersKeepValid, StepKeepsValid};

/// A heap without objects is valid.
pub fn empty_is_valid()
    ensures { EmptyIsValid }
{}

/// Each step of a command whose numbers are in their ranges keeps a state valid; while marking goes
/// on, what may be kept stays closed, holds the roots, and has live nodes alone.
pub fn step_keeps_valid()
    ensures { StepKeepsValid }
{}

/// Entries of threads that run, once they are taken, keep a state valid: the region's slots go on to name
/// live nodes, and what may be kept stays closed, with the roots in it.
pub fn orders_keep_valid()
    ensures { OrdersKeepValid }
{}

/// What a prefinalizer's action does leaves each object its place, its life and the fields of its
/// type.
pub fn actions_leave_nodes()
    ensures { ActionsLeaveNodes }
{}

/// While marking goes on, and at the pause, what may be kept is new since the start, or was reached
/// in the start's graph from its roots and the nodes that were read weakly since.
pub fn may_is_bounded()
    ensures starts { StartsHaveStarted }
    ensures collections { CollectionsHaveStarted }
    ensures bound { MayIsBounded }
{}

/// At each pause what may be kept is closed, holds the roots, and has live nodes alone; what the
/// pause has to keep, it may keep; and where the stack hits nothing, the most that it keeps is just
/// what may be kept.
pub fn pause_bounds_meet()
    ensures { PauseBoundsMeet }
{}

/// A refused command changes nothing but the count of commands.
pub fn refused_leaves_all()
    ensures { RefusedLeavesAll }
{}

/// A command is refused just where it has a reason to be, and for the first that it has.
pub fn refused_for_the_first_reason()
    ensures { RefusedForTheFirstReason }
{}

/// A command that answered `memory` may do so, and changes nothing but the count of commands. After
/// `threads go` the threads are awaited besides, though none was started.
pub fn memory_leaves_all()
    ensures { MemoryLeavesAll }
{}

/// A new object that found the heap full ends an open sweep, raises the count of these answers, and
/// changes nothing else.
pub fn full_leaves_rest()
    ensures { FullLeavesRest }
{}

/// A new object's words belong to no object that is not finalised. One of at most half a page lies
/// in one page, in which no object of another bucket has a word; a larger one takes whole pages,
/// from the first word of one and no more than it needs, and each of them holds nothing else.
pub fn placement_is_free()
    ensures { PlacementIsFree }
{}

/// The objects that have a word in one page of a valid state are of one bucket: that of the page.
pub fn pages_have_one_bucket()
    ensures { PagesHaveOneBucket }
{}

/// The sweep of all pages finalises each dead node once, in the order of their addresses.
pub fn sweeps_finalise_dead()
    ensures { SweepsFinaliseDead }
{}

/// Each reply of a legal history is the one that a region of one thread gives at that point.
pub fn replies_are_of_one_thread()
    ensures { RepliesAreOfOneThread }
{}

/// The pieces of a run make a legal history, whose replay gives the region's slots.
pub fn runs_are_replayed()
    ensures { RunsAreReplayed }
{}

/// A text is read back into lines only where it is the text of these lines, with the end of each, and
/// always where it is that and their numbers have 64 bits.
pub fn lines_read_back()
    ensures { LinesReadBack }
{}

/// A report, over any list of types, is read back into the lines of the types, of the outcomes in
/// order, and of the end.
pub fn report_reads_back<T>()
    ensures { ReportReadsBack T }
{}

/// Each text of bytes is one script, or has exactly one fault, and never both.
pub fn texts_are_judged()
    ensures { TextsAreJudged }
{}

/// What a script says is never too much for a heap: few types of few fields, and few commands whose
/// numbers are in their ranges.
pub fn scripts_are_in_ranges()
    ensures { ScriptsAreInRanges }
{}

/// A script of version 1 has no weak callbacks.
pub fn weak_callbacks_are_of_version_two()
    ensures { WeakCallbacksAreOfVersionTwo }
{}
