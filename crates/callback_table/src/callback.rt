// A stored callback, with the fact of what it answers.

ghost use Rattle.std.specs.Prelude.{◌≡◌, ◌≤◌, length};
ghost use Rattle.gc_graph.specs.Actions.{action_of};
ghost use Rattle.callback_table.specs.Answers.{IsCallable, AnswersAs};

use gc_graph::{Action, ActionKind};

type Call = Box<dyn Fn(&[u64]) -> Action + Send>;

/// The code of a prefinalizer (`CPPGC_USING_PRE_FINALIZER`, `include/cppgc/prefinalizer.h`) or of a
/// weak callback (`WeakCallback`, `include/cppgc/visitor.h`), and the kind of action that it is known
/// to answer.
#[derive(Drop)]
pub struct Callback {
    kind: ActionKind,
    call: Call,
    pub ghost callable: { IsCallable (λ words. Call.pre call words) },
    pub ghost answers: { AnswersAs (λ words action. Call.post call words action) kind },
}

impl Callback {
    /// Keeps the call, which is given the shown words of an object.
    pub fn new(kind: ActionKind, call: Call) -> Callback
        requires callable { IsCallable (λ words. Call.pre call words) }
        requires answers { AnswersAs (λ words action. Call.post call words action) kind }
        ensures { result.kind ≡ kind }
    {
        Callback { kind, call }
    }

    /// The kind of action that it answers.
    pub(crate) fn kind(&self) -> ActionKind
        ensures { result ≡ self.now.kind }
    {
        self.kind
    }

    /// Calls it with shown words.
    pub(crate) fn call(&self, words: &[u64]) -> Action
        requires { length words.now ≤ 64 }
        ensures { result ≡ action_of self.now.kind words.now }
    {
        (self.call)(words)
    }
}
