//! # Trials of the parts
//!
//! What it is: the tests of the crates of plain parts and of those below them, and nothing else. They
//! stand in a crate of their own, so that no other crate waits for them. Those of the region stand in
//! `region_trials`.
//!
//! The parts, each named for what it tries. Of graphs, header words and types: `graphs`, `headers`,
//! `types`. Of slots and callbacks: `slots`, `callbacks`. Of marking lists: `lists`, `stealing` (each
//! call by one thread) and `stealing_threads` (an owner and two shares, each on a thread of its own).
//!
//! What is proved: that the tests are safe and call only what they may.
//!
//! What is only tested or not said: each expected value was worked out by hand.
#![tactic(auto)]

#[cfg(test)]
mod callbacks;
#[cfg(test)]
mod graphs;
#[cfg(test)]
mod headers;
#[cfg(test)]
mod lists;
#[cfg(test)]
mod slots;
#[cfg(test)]
mod stealing;
#[cfg(test)]
mod stealing_threads;
#[cfg(test)]
mod types;
