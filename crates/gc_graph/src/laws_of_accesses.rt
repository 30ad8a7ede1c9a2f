// The laws of the commands on objects and handles, as in laws.rt.

ghost use Rattle.gc_graph.specs.AccessLaw.{NewObjectsAreEmpty, SlotsAreCopied, WrittenIsReadBack};
ghost use Rattle.gc_graph.specs.AnswersLaw.{CommandsAreAnsweredInKind};
ghost use Rattle.gc_graph.specs.Families.{StepsStayInTheirFamily};
ghost use Rattle.gc_graph.specs.FrameLaw.{FieldsTakeTurns, StepsLeaveRest};

/// A command is answered by lines of its own kind, and by one at least.
pub fn commands_are_answered_in_kind()
    ensures { CommandsAreAnsweredInKind }
{}

/// What was set, paired, put, weakly held, pushed or exported is what the next read of the same place
/// gives.
pub fn written_is_read_back()
    ensures { WrittenIsReadBack }
{}

/// A copied slot holds what the other one held, and a dropped one nothing.
pub fn slots_are_copied()
    ensures { SlotsAreCopied }
{}

/// A new object has the next number, the fields of its type, and null or 0 in each word; its slot
/// names it.
pub fn new_objects_are_empty()
    ensures { NewObjectsAreEmpty }
{}

/// A step changes no slot and no word but those that its command names, and pushes, pops, registers and
/// moves the cycle only where its command does. The fields of an object take its words in turn.
pub fn steps_leave_the_rest()
    ensures rest { StepsLeaveRest }
    ensures fields { FieldsTakeTurns }
{}

/// A command is of one of nine families. It changes no part of the state but those of its family, takes
/// what its family takes of the region's history, and has one line that answers it, with those that its
/// family tells before and after.
pub fn steps_stay_in_their_family()
    ensures { StepsStayInTheirFamily }
{}
