//! # The notes of pairs
//!
//! What it is: notes of pairs whose key was not marked yet, and of objects that may still have to be
//! traced, as the owner and each marker makes them (`include/cppgc/ephemeron-pair.h`). Beside them
//! stand the words in which all tracing is told: what the words of an object name, and the way of
//! the machine's hand along them. Below is `page_words`.
//!
//! The parts: `Pairs` and `Note`; `Index`, a tree over the keys' bits that tells which notes are
//! under a key, so that nobody goes over all of them.
//!
//! What is proved: a note is made, or refused and counted; the index tells first a note that was put
//! under the key, and to bring notes into it changes nothing but what was looked at.
//!
//! What is only tested or not said: that the index tells all notes of a key, and no other after the
//! first, is tested in `marking_trials`. It is a hint: whoever asks looks at each note again.
#![tactic(auto)]

mod index;
mod notes;

pub use index::Index;
pub use notes::{Note, Pairs};
