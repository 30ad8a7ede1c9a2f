//! # Slots
//!
//! What it is: the handles of a heap that stand outside it. A slot holds the place of an object, or
//! nothing. What a handle means, strong or weak, its owner knows.
//!
//! The parts: `Slots`.
//!
//! What is proved: the slots are a list of optional places, of which each call changes exactly the
//! slot that it names; `clear_dead` clears exactly the slots whose place its test calls dead.
//!
//! What is only tested or not said: that memory suffices for the slots.
#![tactic(auto)]

mod slots;

pub use slots::Slots;
