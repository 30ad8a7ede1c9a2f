//! # The pages of a heap
//!
//! What it is: where objects lie in the heap's words. Objects of one bucket share pages, and a
//! large one has pages of its own. New objects are placed here, and dead ones taken away.
//!
//! The parts: `Space` with `new`, `find` and `find_empty` (where a new object goes), `occupy` and
//! `free` (an object that comes or goes), `next_object` and `start_from` (where the next object
//! starts), `starts_in` (the start bits of a block), `start_of` (whose word an address is),
//! `page_bucket` and the readers of one object, and the counts `objects`, `used`, `pages_in_use`.
//! Inside, a table tells of each page how many objects have a word in it, their bucket and where they
//! start. `searching` looks for a gap where `gap_bounds` says that one may be, and tells it what it
//! saw; `opening` tells it of the gap that an object leaves, and `walking` goes from object to object.
//! Below are `gap_bounds` and `page_words`.
//!
//! | size in words | bucket |
//! |---|---|
//! | 2 to 3 | 0 |
//! | 4 to 7 | 1 |
//! | 8 to 15 | 2 |
//! | 16 to half a page | 3 |
//! | more | 4, large: it starts a page and takes as many pages as it needs |
//!
//! What is proved: `find` and `find_empty` answer the lowest place, and none exactly where there
//! is none. `occupy` publishes an object whose fields are null and whose serial number no other has,
//! and `free` takes one away. After each of them small objects lie in one page, large ones share none,
//! and the counts are right. No gap is longer than what is remembered says, so no answer depends on
//! it. `start_of` answers the object that has the word, an inner one too, and none exactly where none
//! has it. What was found traced before `find`, `occupy` or `header_at` is still so after it.
//!
//! What is only tested or not said: that `Space::new` succeeds where there is memory, and what is
//! found in heaps of a few pages, is tested in `words_trials`. How long a search takes is not said;
//! `bench` measures it.
#![tactic(auto)]

mod bodywords;
mod changing;
mod holding;
mod opening;
mod placing;
mod reading;
mod searching;
mod space;
mod table;
mod walking;

pub use gap_bounds::MutatorSeat;
pub use space::Space;
