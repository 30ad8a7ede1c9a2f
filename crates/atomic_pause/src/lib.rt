//! # The pause
//!
//! What it is: what a collection does while the program waits. What the roots reach is kept, the
//! other objects are condemned, what is weak and names one of them becomes null, and callbacks run:
//! the weak ones of kept objects that lost a field so, and the prefinalizers of condemned ones.
//!
//! The parts: `visit_slots`, which marks what the strong slots name, at the start of a cycle too, and
//! `visit_told`, which does so there for the region's; `pause`, which works on `Parts` that their
//! owners lend and answers a `PauseResult`. It calls, in this order, `mark_out`, `clear_weak`,
//! `clear_region` and `call_back`, and has the region's lock from the roots until its weak slots are
//! cleared. `clear_weak` begins with `prepare`, and `call_back` is `call_weak` and `prefinalise`.
//! `mark_out` is `visit_slots`, `visit_region` and `scan_stack` (the roots), and then `close` (the
//! marking list is drained and pairs come to their fixpoint). The next level down is `ephemerons`,
//! `weak_clearing`, `cross_thread_region` and `callback_table`.
//!
//! What is proved: `pause` keeps what the roots reach, by strong fields and by pairs whose key is
//! kept, and nothing but what the cycle may keep, the region's strong slots name and the stack hits,
//! with all that these reach; exactly the weak handles of kept objects to condemned ones become null,
//! and exactly the weak slots, those of the region too, that name one; the weak callbacks of just the
//! kept nodes of which a weak field became null so run, by their numbers, and then the prefinalizers
//! of condemned nodes, the last that was registered first, and nothing comes to life again. Of the
//! region this speaks as of the history that the pause found: what its pass had seen, and then orders
//! of threads alone. A precise pause doesn't look at the stack. It needs no memory and can't fail.
//! Until marking ends, a precise pause to which no memory was refused looks at no headers but those
//! of kept objects and of keys of their pairs.
//!
//! What is only tested or not said: how long it takes, and which headers weak clearing and
//! prefinalizers look at once marking has ended.
#![tactic(auto)]

mod clearing;
mod closing;
mod judging;
mod marking;
mod parts;
mod pausing;
mod prefinalizing;
mod region_clearing;
mod roots;
mod weak_calling;

pub use ephemerons::trace_listed;
pub use parts::{Parts, PauseResult};
pub use pausing::pause;
pub use prefinalizer_effects::NodeLists;
pub use roots::{visit_slots, visit_told};
