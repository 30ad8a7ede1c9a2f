//! # The lines of commands
//!
//! What it is: the forms of commands, in a table, and what a line says by them. It knows neither type
//! lines nor what stands on other lines.
//!
//! The parts: `read_command` (what a line says, or the lowest reason why it says nothing),
//! `quick_line` (what a line of a frequent form says, by its row alone), `Bounds` (what the numbers of
//! a line may name), `CommandLine`, `QuickLine`, and the numbers of the `reasons`.
//!
//! What is proved: a line says the command of its form as the grammar of `gc_graph` does, or has the
//! lowest reason that its words give. `specs/PlainForms.antt` has a lemma for the crates above, which
//! can't cite a crate's proofs.
//!
//! What is only tested or not said: how long a call takes. The tests stand in `run_trials`.
#![tactic(auto)]

mod command_lines;
mod forms;
mod making;
mod pairs;
mod places;
mod quick_lines;
pub mod reasons;
mod row_lines;
mod row_search;
mod rows;
mod said;
mod spots;
mod wide;

pub use command_lines::read_command;
pub use places::Bounds;
pub use quick_lines::{QuickLine, quick_line};
pub use row_lines::CommandLine;
