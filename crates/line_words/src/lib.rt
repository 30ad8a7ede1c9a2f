//! # The words and numbers of a line
//!
//! What it is: what stands on a line of a script, by its places in the bytes. It knows no command.
//!
//! The parts: `next_word` (where the next word stands), `next_number` (the same, with the number that
//! it is), `number` and `number_below` (the number that a word is), and for lines that are looked for
//! `begins`, `next_small`, `next_any`, `line_end` and `is_line_end`.
//!
//! What is proved: the words are those of the grammar of `gc_graph`, and so are their numbers, which
//! the quick reading of up to three digits reads as the plain one does. `specs/LineParts.antt` has
//! lemmas on lines, for the crates above, which can't cite a crate's proofs.
//!
//! What is only tested or not said: how long a call takes.
#![tactic(auto)]

mod cursor;
mod numbers;
mod numerals;
mod quick_words;

pub use cursor::next_word;
pub use numbers::{number, number_below};
pub use numerals::{Numeral, next_number};
pub use quick_words::{Any, Small, begins, is_line_end, line_end, next_any, next_small};
