//! # What is remembered of gaps
//!
//! What it is: where in a heap a search for room is worth its time. A gap is a run of words of a page
//! that belong to no object. Gaps are not listed: what is remembered are bounds that none exceeds,
//! so that a search passes by where there can be none.
//!
//! The parts: `Gaps`, with a bound for the gaps that begin in each block of 64 words and for those of
//! each page, and for each class of sizes the first address worth a look; `Class` and `class_of`.
//! Inside, `Bounds` has the bounds of the blocks, and above them those of groups of four. Below is
//! `page_words`, for the words of a block alone: this crate reads no word of a heap.
//!
//! | what happened | call |
//! |---|---|
//! | a page is searched of which nothing is known | `learn` |
//! | a walk saw all gaps of some blocks | `saw`, and for all blocks of a page `tighten` |
//! | a search of a class ended | `begin_at` |
//! | an object went, and the ends of the gap around it are known | `open` |
//! | an object went, and they are not | `forget` |
//! | an object came | `fill`, which changes no bound: one that is too large hides no gap |
//!
//! What is proved: no gap is hidden. After each call none is longer than what is told of its block
//! and page, and none of a class begins below the class's address, for each heap in which this held
//! before the call and to which happened what the call stands for.
//!
//! What is only tested or not said: how tight the bounds are, which is how long searches take. `bench`
//! measures it.
#![tactic(auto)]

mod bounds;
mod classes;
mod gaps;

pub use bounds::GROUP_WORDS;
pub use classes::{Class, class_of};
pub use gaps::Gaps;
pub use page_words::{BLOCK_WORDS, Bodywords, MutatorSeat, Reading, Reason, TypeTable, Words};
