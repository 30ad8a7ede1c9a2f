//! # The owner's tracing
//!
//! What it is: marking from object to object over the words of a heap, by its owner. A strong field
//! marks what it names; a pair marks its value once its key is marked
//! (`include/cppgc/ephemeron-pair.h`). Below are `page_words`, and `pair_notes` with the notes of
//! pairs whose key was not marked yet.
//!
//! The parts: `mark` (one object, as a root does it), `claim` and `trace` (one object),
//! `trace_listed` (so many objects of the list), `fixpoint` (all that is marked, until nothing asks
//! for more). What `fixpoint` is lent is one value within, `Tracer`.
//!
//! An object is claimed, and traced to its end before the next one is. Meanwhile it is in the step
//! machine's hand: its strong fields and pairs are read in the order of their offsets, and what a
//! strong field or a value names is marked by a call each time, marked before or not.
//!
//! What is proved: `trace` marks just what strong fields name and the values of pairs whose key is
//! marked, and notes just the other pairs with a key, in their order. `trace_listed` keeps marking
//! under way: its list and its notes account for all that is left to do, unless one tells that it
//! was refused something. `fixpoint` ends with a closed marked set in which nothing is grey, and
//! marks nothing but what each closed set holds that holds what was marked before. Both answer how
//! many objects they traced. None needs memory: where a push or a note was refused, the fixpoint
//! walks the heap, and a count tells of it. Where it doesn't walk it looks at no headers but those
//! of objects that are marked by then and of the keys of their pairs. Both ask that no view is lent
//! and no share of the list is out, nothing is in hand and nothing waits for its mark, and leave
//! that so. What is marked is something that the cycle may keep.
//!
//! What is only tested or not said: how long it takes. That tracing can succeed is tested in
//! `marking_trials`.
#![tactic(auto)]

mod closing;
mod draining;
mod marks;
mod pair_fields;
mod settling;
mod stepping;
mod strong_fields;
mod tracer;
mod tracing;
mod walking;

pub use closing::fixpoint;
pub use marks::mark;
pub use pair_notes::Pairs;
pub use stepping::trace_listed;
pub use tracing::{claim, trace};
