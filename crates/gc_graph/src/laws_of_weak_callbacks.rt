// The laws of weak callbacks in a run, as in laws.rt.

ghost use Rattle.gc_graph.specs.WeakCallLaw.{
  CallsShowWhatIsLost,
  PausesRunWeakCallbacks,
  WeakCallbacksMeetWhatIsLeft,
};

/// A pause runs the weak callbacks of the nodes that live on and lose what a weak field names, and
/// tells just these in their order, before the prefinalizers. Each is shown 2 for such a word. It
/// acts on what those before it left, and is shown the other words as they left them.
pub fn pauses_run_weak_callbacks()
    ensures runs { PausesRunWeakCallbacks }
    ensures shows { CallsShowWhatIsLost }
    ensures meets { WeakCallbacksMeetWhatIsLeft }
{}
