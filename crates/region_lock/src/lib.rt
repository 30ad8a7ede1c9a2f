//! # The lock
//!
//! What it is: a ticket lock over a value with a history, a list of entries each of which names a
//! number. Threads share the lock. Each calls it with a pass, whose number its entries name.
//!
//! The parts: `RegionLock<V>`; `LockPass<V>`, with which a thread calls it; `Held<V>`, the value for
//! one turn; `Chronicle`, what the value has to be. Inside: `steps` (the single accesses to a table of
//! three words and a slot) and `views` (what contracts see of them).
//!
//! ```text
//! let (lock, mut pass) = RegionLock::new(alloc, value)?;
//! let mut held = lock.take(rt, &mut pass);
//! if held.value.numbers.push(0).is_ok() { held.added(); }
//! lock.give(held, &mut pass);
//! ```
//!
//! What is proved: one pass at a time has the value, as the last one gave it back. Its entries begin
//! with all that this pass has seen. Those behind them name other numbers, and for the first pass
//! numbers of passes that are out. A pass gives the value back with what it found, and behind it only
//! entries with its own number. One that is split off has seen what the first pass has. After a join
//! the first pass has seen what either has, and all entries of the joined one. Only `take` waits, and
//! only `new` may want memory.
//!
//! What is only tested or not said: that a wait ends, which it does once all that drew a ticket before
//! have given the value back; and who gets how many turns.
#![tactic(auto)]

mod chronicle;
mod lock;
mod passes;
mod steps;
mod views;

pub use chronicle::Chronicle;
pub use lock::RegionLock;
pub use passes::{Held, LockPass};
