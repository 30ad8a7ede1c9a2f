//! # The parts of a heap, and its cycle
//!
//! What it is: all parts of a heap as one value, and what concerns several of them at once:
//! collections, sweeps, and where a new object goes while a sweep is open.
//!
//! The parts: `Parts` (`objects`, `handles`, `cycle` and `region`; a further part is one more
//! field, and one line in `state_of`), `Cycle` (phase, registered prefinalizers, how far its sweep is),
//! `collections` (`start`, `step` and `finish` of a cycle, and `collect`, the whole of one) over
//! `beginning` and `crew` (the markers), `reads` (weak reads), `sweeps` and `cycle_sweeps`,
//! `placement`, and `Outcome` (the lines of the last command). For contracts alone: `states`, and
//! `Parts::take_since` of `taking`. Next down is `heap_roots`.
//!
//! What is proved: the state of the graph is put together from what each part holds of it. Start,
//! step and pause of a cycle, a whole collection, a weak read and a sweep are lawful steps of that
//! state, and leave the parts tied to each other: slots, stack and registrations hold the places of
//! their nodes, and so do the region's slots, and the marks are those of the phase. Start and pause
//! take what threads have done until then, and behind it the entry of their own. A start marks what
//! the strong slots name, those of the region too, and starts the heap's markers, which run until
//! the pause joins them. A step that is done leaves nothing grey unless a push was refused; beside
//! markers the owner's last pop and steal found nothing, or it took 2^32 - 1 items. A place for a
//! new object is the one that the graph's placement says. A pause line tells truly whether the heap
//! was walked, and how many objects the markers traced.
//!
//! What is only tested or not said: that memory suffices, and how long a command takes.
#![tactic(auto)]

mod beginning;
mod collections;
mod crew;
mod cycle;
mod cycle_sweeps;
mod outcome;
mod parts;
mod placement;
mod reads;
mod states;
mod sweeps;
mod taking;

pub use collections::{collect, finish, start, step};
pub use crew::join_crew;
pub use cycle::{Counts, Cycle};
pub use heap_roots::{
    Content, Field, FreeGate, Gate, Handles, Objects, OwnedRegion, PairContent, Part, Pushed,
    Wanted,
};
pub use outcome::Outcome;
pub use parts::Parts;
pub use placement::place_for;
pub use reads::read_weakly;
pub use states::{Moments, States, empty as empty_state, moment};
pub use sweeps::{sweep_all, sweep_some};
