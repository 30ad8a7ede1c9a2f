//! # The crew of markers
//!
//! What it is: how markers trace what they take from the marking lists, beside the mutator and one
//! another. Below are `page_words` (the seats of markers), `mark_worklist` (their shares of the
//! lists) and `pair_notes` (notes of pairs).
//!
//! The parts: `drain` (so many items, one after another), `Drained` (what it tells), `Crew` (up to
//! eight markers, each with a thread), `CrewResult` (what they tell together), `step_beside` (the
//! owner's step). It hands on `Gate` and `FreeGate`, where a test may hold a marker.
//!
//! What is proved: `docs/PROVED.md`, under what a marker drains.
//!
//! What is only tested or not said: that a marker has a thread of its own, and when it ends.
#![tactic(auto)]

mod beside;
mod crew;
mod draining;
mod endings;
mod gate;
mod items;
mod objects;
mod recording;
mod runners;
mod taking;

pub use beside::step_beside;
pub use crew::{Crew, CrewResult};
pub use draining::{Drained, drain};
pub use thread_gate::{FreeGate, Gate};
