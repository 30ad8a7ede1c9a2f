//! # Steps on real data
//!
//! What it is: the state of the step machine as lists in memory, and lists of steps that are taken on
//! it. The machine, its states and its laws are those of `marker_core`; they stand apart, so that
//! what is built on the laws does not wait for this code.
//!
//! The parts: `idle_state`, with which all begins; `after`, the state after a list of steps, or a
//! `CoreFault`. Below these, a file for each kind of step has its test and its change (`mutator`,
//! `objects`, `marking`, `cycle`, `lending`, `looking`, `markers`), over what they share: words and
//! their bits, bodies, what roots reach, and how a hand is traced.
//!
//! What is proved: `after` answers the state after all steps as the machine's definitions give it, or
//! the first step that isn't allowed; each test and each change is that of the definitions.
//!
//! What is only tested or not said: `after` is as fast as tests need it, and answers want of memory
//! at will. `words_trials` runs it on schedules that were worked out by hand.
#![tactic(auto)]

mod bodies;
mod cycle;
mod hands;
mod idle;
mod lending;
mod looking;
mod markers;
mod marking;
mod mutator;
mod objects;
mod reaching;
mod reading;
mod running;

pub use idle::idle_state;
pub use running::{CoreFault, after};
