//! # The objects of a heap
//!
//! What it is: the objects in a heap's words, by place, with the nodes of the graph that they are.
//! Places, sizes and offsets are in words.
//!
//! The parts: `Objects`, with what is done to it in `finding` (where a new object goes, and how it is
//! made), `object_fields` and `pair_fields` (fields are found, read and written), `object_sweeps`
//! (pages are swept), `pausing` (marking begins, goes on in steps, and ends with the pause) and `crew`
//! (markers are started beside it and joined); `CrewLists` (what these take), `Finished` (what a pause
//! tells); `Field`, `Part` and `Wanted` (fields), `Content` and `PairContent` (what goes into one).
//! Inside, `Grey` is what is kept of marking, which a write is lent for its barrier, a step and the pause
//! for their marking. For contracts alone: `Names`, `nodes` and `kinds`. Next down are `atomic_pause`,
//! `marker_crew`, `ephemerons`, `member_fields`, `sweeper` and `page_space`.
//!
//! What is proved: each node that is not finalised is the object with its number, type, size, place,
//! field words and extra words, whatever call is made. What is told of an object is what the node has,
//! and what is written into it changes that node and no other. While marking goes on, the objects that
//! may be kept are what the roots reached at its beginning, new objects, and what weak reads gave with
//! all that it reaches; and no write or step leaves a grey object off the list, unless a push was
//! refused. Markers that run change none of this, and what they did is known once a pause has joined them.
//! Each item that the owner takes beside them it claims, finds traced or notes, unless a note was refused.
//! A pause keeps what the region's strong slots name in the history that it found, orders of threads
//! that its pass had not seen among it. It tells truly whether it walked: where a push or a note was
//! refused since marking began, by whomever, and nowhere else, as far as the counts of these show it.
//!
//! What is only tested or not said: how long a call takes.
#![tactic(auto)]

mod content;
mod crew;
mod field;
mod finding;
mod kinds;
mod marking;
mod names;
mod nodes;
mod object_fields;
mod object_sweeps;
mod objects;
mod pair_fields;
mod pausing;
mod steps;

pub use content::{Content, Values};
pub use crew::CrewLists;
pub use field::{Field, Part, Wanted};
pub use marker_crew::{FreeGate, Gate};
pub use names::Names;
pub use objects::Objects;
pub use pair_fields::PairContent;
pub use pausing::Finished;
pub use sweeper::Sweep;
