//! # Header words
//!
//! What it is: the first word of each object of a heap. It tells whether the object is live,
//! whether it is marked and traced, its type, and its size in words. No other crate knows where in
//! the word these stand. The places of the words after it have their names here too.
//!
//! The parts: `Header` (what a header word tells) with `Header::pack`, `Header::read`, and, of a
//! word that is known to be a header, `Header::read_unchecked` and `Header::type_in`, the type alone;
//! `with_mark` and `with_traced`, which change one bit of a word; `SERIAL` and `FIRST_FIELD`,
//! the offsets of an object's other words; `reference_to` and `place_in`, from place to reference
//! and back.
//!
//! | offset | word |
//! |---|---|
//! | 0 | header |
//! | 1 | serial number |
//! | from 2 | fields; a reference is 0 for null, else one more than a place |
//!
//! | bits of a header | what they tell |
//! |---|---|
//! | 0 | live |
//! | 1 | marked |
//! | 2 | traced |
//! | 3 to 16 | the number of the type |
//! | 17 to 42 | the size in words |
//! | 43 to 63 | nothing; they are clear |
//!
//! What is proved: `pack` gives the word of the table. `read` answers exactly where the word is the
//! header of a live object that has a size, and answers what was packed; of such a word
//! `read_unchecked` answers the same, and `type_in` the type. `with_mark` and `with_traced` change
//! their bit and no other, of any word. Place and reference tell each other.
//!
//! What is only tested or not said: that the tables are what a reader expects is tested in
//! `parts_trials`, on a few words that were worked out by hand.
#![tactic(auto)]

mod bits;
mod header;
mod offsets;

pub use bits::{with_mark, with_traced};
pub use header::Header;
pub use offsets::{FIRST_FIELD, SERIAL, place_in, reference_to};
