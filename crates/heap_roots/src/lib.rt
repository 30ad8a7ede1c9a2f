//! # The handles of a heap
//!
//! What it is: what a program holds of a heap's objects: strong slots, weak slots, and a stack whose
//! words a conservative collection looks at (`include/cppgc/persistent.h`, and precise and
//! conservative garbage collection in `include/cppgc/README.md`).
//!
//! The parts: `Handles`, with the slots in `handles`, the stack as a part of it in `handle_stack`, and
//! the beginning and the end of marking in `pausing`; `Stack` and `Pushed`. For contracts alone:
//! `slot_lists` and `stack_words`. Next down is `heap_region`.
//!
//! What is proved: each slot holds the place that was put into it, and the word of the stack that is
//! told is the one that was pushed. Marking begins with what the strong slots, those of the region and
//! the pointers on the stack reach. A pause leaves all but the weak slots as they were, and of these
//! exactly those that name a condemned object become null, in the region too.
//!
//! What is only tested or not said: which node a slot names is known to contracts alone.
#![tactic(auto)]

mod handle_stack;
mod handles;
mod pausing;
mod slot_lists;
mod stack;
mod stack_words;

pub use handles::Handles;
pub use heap_region::{
    Content, CrewLists, Field, Finished, FreeGate, Gate, Objects, OwnedRegion, PairContent, Part,
    Sweep, Wanted,
};
pub use stack::{Pushed, Stack};
