//! # Sweeping page by page
//!
//! What it is: lazy sweeping (`include/cppgc/heap.h`). Pages are swept in their order, one at a time
//! or all that are left, and the heap may be used in between. Sweeping a page finalises the dead
//! objects whose place lies in it, by ascending addresses, and clears the marks of the others there.
//! A large object goes with the page of its first word, and with it the words in its other pages.
//!
//! The parts: `Sweep` with `idle`, `begin`, `cursor`, `page` and `finish`, and `dead_are_few`, which
//! says how much room the numbers of the finalised objects want. None takes memory. Inside,
//! `objects` goes from object to object. The next level down is `page_space`.
//!
//! What is proved: exactly the dead objects of the pages that are swept go, and the number of each
//! is told once, in the order of their places; of all others only those in these pages lose their
//! mark, and nothing else changes. Page after page is the same as all at once. An object that was
//! made in a page that is swept stays, and a sweep to the end leaves nothing marked or dead.
//!
//! What is only tested or not said: how long a sweep takes; `bench` measures it. No call but
//! `finish` looks at more than a page, and the other pages of a large object that goes.
#![tactic(auto)]

mod objects;
mod sweep;

pub use sweep::{PageSwept, Sweep, dead_are_few};
