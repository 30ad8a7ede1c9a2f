//! # The text of a report
//!
//! What it is: the lines of a report become bytes and go to a sink, at once or in large pieces.
//!
//! The parts: `print_line` (a line, written at once), `Pieces` (text that is held back on its way to
//! a sink).
//!
//! What is proved: what is printed is the text of the report's line. After a failure a beginning of
//! it was written, and of text that is held back the rest is still held.
//!
//! What is only tested or not said: that memory suffices, and where one piece ends and the next
//! begins. The tests stand in `run_trials`.
#![tactic(auto)]

mod line_text;
mod pieces;
mod printing;
mod region_text;
mod text;

pub use pieces::Pieces;
pub use printing::print_line;
