// The laws of the region's slots and of its history in steps, as in laws.rt.

ghost use Rattle.gc_graph.specs.HistoryLaw.{StepsFollow};
ghost use Rattle.gc_graph.specs.RegionLaw.{CallsChangeTheirSlot, PausesClearDeadSlots};

/// The piece of the region's history that a step takes is legal after the state before it. Its replay
/// gives the slots of the state after, and marking goes on there just where a start of the history
/// has no pause after it.
pub fn steps_follow_the_history()
    ensures { StepsFollow }
{}

/// A call changes its own slot alone, and that as its name says; a pause clears just the slots that
/// name a dead node weakly.
pub fn calls_change_their_slot()
    ensures slots { CallsChangeTheirSlot }
    ensures pauses { PausesClearDeadSlots }
{}
