// The laws of prefinalizers in a run, as in laws.rt.

ghost use Rattle.gc_graph.specs.ActionLaw.{ActionsWriteOneField};
ghost use Rattle.gc_graph.specs.PrefinalizerLaw.{
  CallbacksMeetWhatIsLeft,
  NewObjectsAreRegistered,
  PausesRunThoseOfTheDead,
};

/// A new object's callbacks are registered behind the others, in the order of its type's list.
pub fn new_objects_are_registered()
    ensures { NewObjectsAreRegistered }
{}

/// A pause runs the callbacks of the dead, after it has cleared weak fields, and tells just these in
/// their order; the others stay registered. Each acts on what those before it left, and is shown the
/// words that they left.
pub fn pauses_run_prefinalizers()
    ensures runs { PausesRunThoseOfTheDead }
    ensures meets { CallbacksMeetWhatIsLeft }
{}

/// What a prefinalizer clears reads null, and what it adds to is the sum modulo 2^64. No other word of
/// the object that its link names, and no other object, has changed.
pub fn actions_write_one_field()
    ensures { ActionsWriteOneField }
{}
