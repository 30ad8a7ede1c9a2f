// The stack as a part of a heap's handles.

ghost use Rattle.std.specs.Prelude.{◌≡◌, ◌+◌, ◌<◌, length, Some, None, slice_index_or};
ghost use Rattle.heap_roots.specs.Stack.{pointer_into};
ghost use Rattle.heap_roots.specs.Handles.{pushed_in, popped_in};

use crate::handles::Handles;
use crate::stack::{Pushed, Stack};
use crate::stack_words;

impl Handles {
    /// A pointer to the word at an offset of what slot p names, which lies at this place.
    pub fn pointer(&self, p: u32, place: u32, offset: u32) -> Pushed
        ensures address { result.address ≡ place + offset }
        ensures place { result.place ≡ Some place }
        ensures word { result.word.value
            ≡ pointer_into (slice_index_or self.now.slots p None) offset }
    {
        Pushed {
            address: u64::from(place) + u64::from(offset),
            place: Some(place),
            word: stack_words::pointer(&self.strong_nodes, p, offset),
        }
    }

    /// The stack.
    pub fn stack(&self) -> &Stack
        ensures { result.now ≡ self.now.stack }
    {
        &self.stack
    }

    /// The word is the last of the stack.
    pub fn push(&mut self, pushed: Pushed)
        requires { length self.old.stack.words < 1024 }
        ensures { self.new
            ≡ pushed_in self.old pushed.word.value pushed.address pushed.place }
    {
        self.stack.push(pushed);
    }

    /// The last word of the stack is taken away.
    pub fn pop(&mut self)
        ensures { self.new ≡ popped_in self.old }
    {
        self.stack.pop();
    }
}
