// The stack, which a conservative collection looks at (precise and conservative garbage collection,
// `include/cppgc/README.md`).

ghost use Rattle.std.specs.Prelude.{◌≡◌, ◌<◌, length, reverse, nat_lt, None, IfOk, slice_get};
ghost use Rattle.gc_graph.specs.CycleSteps.{is_stack_refused};
ghost use Rattle.gc_graph.specs.State.StackWord.{Number};
ghost use Rattle.heap_roots.specs.Stack.{empty_stack, stack_with_word, without_last};

use crate::stack_words::{self, StackWords, WordLists};
use gc_graph::{NoMemory, Want};
use ghost_values::GhostValue;
use std::alloc::Global;
use std::marker::Model;

/// How many words there may be.
const MOST: usize = 1024;

/// What is pushed: the address that the word is, the place of the object to which it points, if it
/// is a pointer, and for contracts the word of the graph's stack.
#[derive(Drop)]
pub struct Pushed {
    pub address: u64,
    pub place: Option<u32>,
    pub word: GhostValue<StackWords>,
}

impl Pushed {
    pub fn number(n: u64) -> Pushed
        ensures address { result.address ≡ n }
        ensures place { result.place ≡ None }
        ensures word { result.word.value ≡ Number n }
    {
        Pushed {
            address: n,
            place: None,
            word: stack_words::number(n),
        }
    }
}

/// The words of the stack, in the order in which they were pushed. A pause can look at the addresses
/// alone; which node a word points to is known to contracts alone. It takes no memory after it was
/// made.
#[derive(Drop)]
pub struct Stack {
    addresses: Vec<u64>,
    places: Vec<Option<u32>>,
    words: GhostValue<WordLists>,
}

impl Model for Stack {
    ghost use Rattle.std.specs.Prelude.{vec_capacity};
    ghost use Rattle.heap_roots.specs.Stack.{StackView, HasStackRoom};

    ghost Value = { StackView };

    ghost view = { λ s. record {
      words = s.words.value;
      addresses = s.addresses.items;
      places = s.places.items;
    } };

    ghost invariant = { λ s. HasStackRoom (record {
      words = s.words.value;
      addresses = s.addresses.items;
      places = s.places.items;
    }) (vec_capacity s.addresses) (vec_capacity s.places) };
}

impl Stack {
    /// A stack without words, which takes the memory for all that it may hold. Want of memory is
    /// free.
    pub fn new(alloc: Global) -> Result<Stack, NoMemory>
        ensures { IfOk result (λ s. s ≡ empty_stack) }
    {
        let addresses = Vec::with_capacity(alloc, MOST)?;
        let places = Vec::with_capacity(alloc, MOST)?;
        Ok(Stack {
            addresses,
            places,
            words: stack_words::none(),
        })
    }

    /// The addresses that the words are, in the order in which they were pushed.
    pub fn addresses(&self) -> &[u64]
        ensures { result.now ≡ self.now.addresses }
    {
        &self.addresses
    }

    /// Whether a collection is refused for the stack: a precise one wants it empty.
    pub fn refuses(&self, want: Want) -> bool
        ensures { result ≡ is_stack_refused want self.now.words }
    {
        match want {
            Want::Precise => self.has_words(),
            Want::Conservative => false,
        }
    }

    /// Whether there is a word.
    pub fn has_words(&self) -> bool
        ensures { result ≡ nat_lt 0 (length self.now.words) }
    {
        self.addresses.len() > 0
    }

    /// Whether there is room for another word.
    pub fn has_room(&self) -> bool
        ensures { result ≡ nat_lt (length self.now.words) 1024 }
    {
        self.addresses.len() < MOST
    }

    /// Of the word with this number, where there is one, the place of the object to which it points,
    /// if it is a pointer. The last word has the number 0.
    pub fn place(&self, i: u32) -> Option<Option<u32>>
        ensures { result ≡ slice_get (reverse self.now.places) i }
    {
        let count = self.places.len();
        let before = i as usize;
        if before < count {
            Some(self.places[count - 1 - before])
        } else {
            None
        }
    }

    pub fn push(&mut self, pushed: Pushed)
        requires { length self.old.words < 1024 }
        ensures { self.new
            ≡ stack_with_word self.old pushed.word.value pushed.address pushed.place }
    {
        self.words = stack_words::pushed(&self.words, &pushed.word);
        self.addresses.push_reserved(pushed.address);
        self.places.push_reserved(pushed.place);
    }

    /// Takes the last word away.
    pub fn pop(&mut self)
        ensures { self.new ≡ without_last self.old }
    {
        self.words = stack_words::popped(&self.words);
        self.addresses.pop();
        self.places.pop();
    }
}
