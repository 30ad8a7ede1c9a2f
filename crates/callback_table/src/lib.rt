//! # Stored callbacks
//!
//! What it is: the prefinalizers and the weak callbacks of a program as stored calls, and which of
//! them run when objects die, or are left with weak fields that were cleared. It knows nothing of a
//! heap's words: whoever has the objects shows and changes them.
//!
//! The parts: `Callback` (a call, and the kind of action that it is known to answer),
//! `CallbackTable` (callbacks by number), `Bodies` (what is asked of the objects), `Registry` (which
//! prefinalizers are to run for which object, and their running), `WeakRegistry` (the same of weak
//! callbacks), `Registrations` (both as one value). `Action` and `ActionKind` are those of the graph.
//!
//! What is proved: a callback answers the action of its kind to every list of at most 64 words,
//! wherever it is kept; registrations are made, placed and taken away as they are asked for; those
//! of dead objects run from the last to the first, each on what the ones before it left, and the
//! others stay in their order. For weak callbacks a mask is asked for at each place. Registrations
//! without one go. The callbacks of those with a mask other than 0 run, from the first to the last,
//! each on what the ones before it left, and are shown 2 in place of word i where bit i is set.
//!
//! What is only tested or not said: that the stored calls themselves are made, and each once; that
//! memory suffices for a registration, and that registering costs the same however many there are.
#![tactic(auto)]

mod bodies;
mod callback;
mod calls;
mod masked;
mod registrations;
mod registry;
mod running;
mod table;
mod weak_registry;
mod weak_running;

pub use bodies::Bodies;
pub use callback::Callback;
pub use gc_graph::{Action, ActionKind};
pub use registrations::{LastRegistered, Registrations};
pub use registry::Registry;
pub use table::CallbackTable;
pub use weak_registry::WeakRegistry;
