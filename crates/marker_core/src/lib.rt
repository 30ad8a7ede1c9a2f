//! # The step machine
//!
//! What it is: the meaning of one access to one word of a heap that a mutator and several markers
//! share. A state is the words, what the mutator knows of them, and what each marker knows. A step
//! is one read or write of one word, or the making or giving back of a marker's view. Nothing here
//! knows who runs when, or of mark lists.
//!
//! The parts: `CoreState` with `Body`, `MutatorView`, `MarkerView` and `Hand`; `CoreStep`, the
//! sixteen kinds of step; `List`, which contracts see as a list; the laws. The definitions stand in
//! `specs/`, to be read in the order of `specs/Lib.antt`: `core_step` is the state after a step,
//! `core_run` that after a list of steps, and `IsCoreOk` what is true of every state. The code that
//! takes steps on real data stands above, in `core_steps`: whoever needs the laws waits for them
//! alone.
//!
//! What is proved: each kind of step keeps what is true of every state, and so does each list of
//! steps; what roots reach over bodies is the least closed set of places that holds them; new bodies
//! and weak reads may be kept; where marking has come to its end, and where it ended, the marked set
//! is closed.
//!
//! What is only tested or not said: the definitions are what a reader has to believe.
#![tactic(auto)]

mod laws;
mod lists;
mod marker_seats;
mod seats;
mod states;
mod steps;

pub use laws::{
    closes_by_words, ends_marked_out, every_run_keeps, every_step_keeps, idle_is_ok,
    new_and_read_may_be_kept, reach_over_is_least, settled_has_ended,
};
pub use lists::List;
pub use marker_seats::{
    bits_are_steps, claims_as_are_steps, fields_are_steps, joins_are_steps, lent_while_on,
    looks_are_steps, marker_words_may_be_found, markers_are_ok, marks_as_are_steps,
    polls_are_steps, splits_are_steps,
};
pub use seats::{
    begins_are_steps, claims_are_steps, fills_are_steps, loads_are_steps, marks_are_steps,
    publishes_are_steps, retracts_are_steps, stops_are_steps, stores_are_steps, unmarks_are_steps,
    views_are_ok, words_may_be_found,
};
pub use states::{Body, CoreState, Hand, MarkerView, MutatorView, Part, Role, Why};
pub use steps::CoreStep;
