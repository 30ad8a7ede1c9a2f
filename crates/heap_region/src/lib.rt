//! # The region of a heap
//!
//! What it is: the slots that a heap's owner shares with the threads of a script
//! (`include/cppgc/cross-thread-persistent.h`), as one value: the region, the owner's pass, the
//! threads of the script, and what of the history the owner has taken.
//!
//! The parts: `OwnedRegion`, with the owner's calls in `calls` (exports, imports and the start of a
//! collection), the pause in `pausing`, the script's threads in `threads`, and what a join tells in
//! `telling`. Inside, `taking` looks at the objects as entries read them. Next down are
//! `cross_thread_region`, `thread_queues` and `heap_objects`.
//!
//! What is proved: a call makes the owner's entry behind what threads have done until then, which
//! is legal and orders of threads that run, with the reply of a region of one thread; then all of
//! it is taken, and what it read from weak slots may be kept while marking goes on. Where memory is
//! wanting nothing is taken. A pause clears exactly the weak slots that name a dead node, keeps what
//! strong slots named when it came, and needs no memory, because the start before it made the room.
//! Threads that go do the orders of their queues beside the owner, and a join takes their entries and
//! tells their answers and then the entries that none has told, from the history that it holds until
//! the next command. Totals that it tells were published from the last ones before the threads went to
//! the last ones before it. A region that is closed has joined its threads, keeps what was taken, and
//! tells that what was taken of a thread's entries is of its first orders.
//!
//! What is only tested or not said: that memory suffices, that a thread is started, and how entries of
//! several threads follow each other.
#![tactic(auto)]

mod calls;
mod owned;
mod pausing;
mod taking;
mod telling;
mod threads;

pub use heap_objects::{
    Content, CrewLists, Field, Finished, FreeGate, Gate, Names, Objects, PairContent, Part, Sweep,
    Values, Wanted,
};
pub use owned::OwnedRegion;
