//! # Generated scripts
//!
//! What it is: scripts of any length that a seed determines: a document tree with weak observers,
//! and a side table of pairs, with collections in steps between its turns. No bytes are read.
//!
//! The parts: `generate` (the script of a seed and a count of turns); the laws of such scripts.
//!
//! What is proved: `generate` answers exactly the script that `generated` says; each such script is
//! in the ranges that a heap asks for.
//!
//! What is only tested or not said: that memory suffices. The tests compare one script with its
//! lines, and others with how many commands they have, worked out by hand.
#![tactic(auto)]

mod laws;
mod scripts;
#[cfg(test)]
mod tests;
mod turns;

pub use laws::{generated_is_in_ranges, powers_are_of_two};
pub use scripts::generate;
