//! # The region
//!
//! What it is: the handles that the threads of a program share (`CrossThreadPersistent` and
//! `WeakCrossThreadPersistent`, `include/cppgc/cross-thread-persistent.h`). A region has at most 32
//! slots, each null, strong or weak, and keeps the history of what was done to them.
//!
//! The parts: `Region`, whose history is behind the lock of `region_lock`; `Pass`, with which a thread
//! calls it; `HeldRegion`, which a pause holds between its beginning and its end, and `HeldHistory`,
//! which a look holds; `PlacedEntry`, of which contracts make the history; `laws`. Inside: `pausing`
//! (turns that last for more than one call), `chronicle` (the history and the slots after it),
//! `contents` and `slot`.
//!
//! What is proved: each call is one turn of the lock. It finds a legal history, which begins with all
//! that its pass has seen and goes on with entries of others, and makes the next entry, with its
//! pass's number and the reply that a region of one thread gives there, or none where memory is
//! wanting. Replaying the history gives what the slots hold, and a slot's place is that of the export
//! from which its node came. A start tells the strong slots in its own turn. A pause visits them and
//! clears exactly the weak slots whose place its test calls dead, in one turn and without memory. What
//! the first pass finds names passes that are out. Exports, imports, starts and pauses are its own.
//!
//! What is only tested or not said: that memory suffices for an entry, that a wait ends, and how many
//! turns each pass gets.
#![tactic(auto)]

mod chronicle;
mod contents;
mod held;
mod laws;
mod pass;
mod pausing;
mod region;
mod slot;

pub use chronicle::PlacedEntry;
pub use held::{HeldHistory, HeldRegion};
pub use laws::places_come_from_exports;
pub use pass::{Histories, Pass};
pub use region::Region;
