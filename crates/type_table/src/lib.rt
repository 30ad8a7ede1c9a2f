//! # The types of a heap
//!
//! What it is: what the type lines of a script declare, and where the fields of each type stand in
//! an object's words. It knows nothing of any object.
//!
//! The parts: `TypeDecl` (the fields, prefinalizers and weak callbacks of a type), `TypeTable`
//! (all of them, with their layouts worked out, and a law, `fields_stand_apart`), `TracedWord` (a
//! strong field or a pair, which tracing reads), `TypeFault` (why there is no such table).
//!
//! | offset | word of an object |
//! |---|---|
//! | 0 | header |
//! | 1 | serial number |
//! | from 2 | the declared fields in their order; a pair takes two words, key and value |
//! | after them | the extra words, each a plain field |
//!
//! What is proved: a table is made exactly of types within the limits, unless memory is wanting,
//! and else the first fault is told; each reader answers what this layout says.
//!
//! What is only tested or not said: that memory suffices for a table.
#![tactic(auto)]

mod decl;
mod faults;
mod laws;
mod layout;
mod table;
mod traced;

pub use decl::TypeDecl;
pub use faults::TypeFault;
pub use laws::fields_stand_apart;
pub use table::TypeTable;
pub use traced::TracedWord;
