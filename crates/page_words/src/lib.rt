//! # The heap's words
//!
//! What it is: the words of a heap, with a start bit for each and a stop word, in a table of atomic
//! words, the mutator's seat of it, and the seats that it lends to markers. Objects are filled,
//! published, marked, claimed and retracted here, one word at a time.
//!
//! The parts: `Words` (the table, which threads can share), `MutatorSeat` (the right to its words, with
//! the view of them that contracts see: which words they are, the types, and the mutator's view of the
//! step machine in `marker_core`), `MarkerSeat` (the same of one marker, which `split` lends and `join`
//! takes back), the calls on each, and `Bodywords`, which is the mutator's calls and a way from object
//! to object; `Words` have both. A load says why it is made (`Reason`). Inside, `accesses` and
//! `marker_accesses` have one step of the table of each kind, and `starts` the way along the start bits.
//!
//! | address | word |
//! |---|---|
//! | below the count | the heap's words; an object is a header, a serial number, and its fields |
//! | from the count on | a start bit for each word of the heap, 64 to a word, the lowest first |
//! | after these | the stop word: 0 at first and from when marking begins, 1 from when it ends |
//!
//! What is proved: each call is one step of the table and one step of the machine: it answers what the
//! view tells of the word, and changes the view as that step does. Between any two steps words and
//! views, any number of markers' among them, are a state of the machine of which all is true that is
//! true of every state (`IsCore`). No call waits.
//!
//! What is only tested or not said: that `Words::new` succeeds where there is memory, and where the
//! stop word is, is tested in `words_trials`. A word that belongs to no object and was not filled may
//! be anything. Nothing is said of when a marker comes to its end.
#![tactic(auto)]

mod accesses;
mod bodywords;
mod lent_seats;
mod marker_accesses;
mod marker_views;
mod markers;
mod marking;
mod mutator;
mod reasons;
mod starts;
mod views;
mod words;

pub use bodywords::Bodywords;
pub use markers::MarkerSeat;
pub use marking::has_mark;
pub use mutator::MutatorSeat;
pub use reasons::{Reading, Reason, Tracing, WeakRead};
pub use type_table::TypeTable;
pub use words::{BLOCK_WORDS, Words};
