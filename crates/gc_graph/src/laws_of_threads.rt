// The laws of the script's threads, and of what commands count, as in laws.rt.

ghost use Rattle.gc_graph.specs.JoinLaw.{
  EntriesAreToldOnce,
  JoinsTellAll,
  OrdersWaitInOrder,
  ThreadsWithOrdersGo,
};
ghost use Rattle.gc_graph.specs.LawfulLaw.{LawfulHistoryIsTold};
ghost use Rattle.gc_graph.specs.OrderLaw.{
  EntriesAreOfTheirThreads,
  JoinedDidTheirOrders,
  RunningDoTheirOrders,
};
ghost use Rattle.gc_graph.specs.OwnEntryLaw.{StepsMakeOwnEntries};
ghost use Rattle.gc_graph.specs.SlotsLaw.{RunsKeepSlots};
ghost use Rattle.gc_graph.specs.ThreadLaw.{StepsCount, StepsLeaveThreads};

/// Threads run from a start of them to the next join. No other command than those on threads changes
/// a queue or which threads run.
pub fn steps_leave_threads()
    ensures { StepsLeaveThreads }
{}

/// No more pauses and full outcomes come than commands, and each node is there or was finalised.
pub fn steps_count()
    ensures { StepsCount }
{}

/// An order waits behind the others of its thread, and just the threads that have orders are started.
pub fn orders_wait_for_their_thread()
    ensures orders { OrdersWaitInOrder }
    ensures starts { ThreadsWithOrdersGo }
{}

/// A join tells one answer for each order, by threads and in the order of their queues, then the
/// entries, and last how many threads there were; it leaves none of these orders and entries.
pub fn joins_tell_all()
    ensures { JoinsTellAll }
{}

/// The entries that a run has told and those that it has yet to tell are its history, in order.
pub fn entries_are_told_once()
    ensures { EntriesAreToldOnce }
{}

/// The history of a lawful run is what its lines tell of it, and then what they have yet to tell; it
/// is legal, and gives the slots of the region.
pub fn lawful_history_is_told()
    ensures { LawfulHistoryIsTold }
{}

/// The entries that a join tells of a thread do its orders in the order of its queue, each with the
/// slots that the order says, but for those that were told totals or want of memory. Where a thread
/// runs at the end of a lawful run, its entries that are not told yet do some of its orders, in
/// their order.
pub fn threads_do_their_orders()
    ensures joined { JoinedDidTheirOrders }
    ensures running { RunningDoTheirOrders }
{}

/// Each entry that a step takes is the owner's, and none that an order can say, or it is of a thread
/// that runs, and one that an order can say.
pub fn entries_are_of_their_threads()
    ensures { EntriesAreOfTheirThreads }
{}

/// In each state of a run there are 256 strong slots, 64 weak ones and 32 of the region, and eight
/// queues; the threads that run are of these eight, each once and in order.
pub fn runs_keep_slots()
    ensures { RunsKeepSlots }
{}

/// An export, an import, a start and a pause each make one entry of the owner, after those of threads.
/// A join takes entries of threads alone, and no other command takes any.
pub fn steps_make_own_entries()
    ensures { StepsMakeOwnEntries }
{}
