// What a table of callbacks tells and calls.

ghost use Rattle.std.specs.Prelude.{◌≡◌, ◌<◌, ◌≤◌, ◌^◌, length, map};
ghost use Rattle.gc_graph.specs.Actions.{action_of};
ghost use Rattle.gc_graph.specs.Pause.{kind_of_callback};
ghost use Rattle.callback_table.specs.Table.{callback_kinds};

use crate::callback::Callback;
use crate::table::CallbackTable;
use gc_graph::{Action, ActionKind};

impl CallbackTable {
    /// Takes no memory.
    pub fn new(list: Vec<Callback>) -> CallbackTable
        requires { length list.items < 2 ^ 32 }
        ensures { callback_kinds result ≡ map (λ callback. callback.kind) list.items }
    {
        CallbackTable { list }
    }

    /// How many callbacks there are.
    pub fn len(&self) -> u32
        ensures { result ≡ length (callback_kinds self.now) }
    {
        self.list.len() as u32
    }

    /// The kind of action that callback i answers.
    pub fn kind(&self, i: u32) -> ActionKind
        requires { i < length (callback_kinds self.now) }
        ensures { result ≡ kind_of_callback (callback_kinds self.now) i }
    {
        self.list[i as usize].kind()
    }

    /// Calls callback i with shown words.
    pub fn call(&self, i: u32, words: &[u64]) -> Action
        requires number { i < length (callback_kinds self.now) }
        requires words { length words.now ≤ 64 }
        ensures { result ≡ action_of (kind_of_callback (callback_kinds self.now) i) words.now }
    {
        self.list[i as usize].call(words)
    }
}
