//! # Scripts
//!
//! What it is: the text at the edge of the heap. A script's bytes become types and commands. What
//! its callers want of the crates below, devices and the lines of a report, stands here too.
//!
//! The parts: `read_script` (a script, or its first fault), `Script`, `ScriptFault`; from
//! `text_devices` the devices and `read_whole`, from `report_text` `print_line` and `Pieces`, from
//! `line_words` `number_below`.
//!
//! What is proved: a script that is read is what the grammar of `gc_graph` says of its bytes, and a
//! fault names the first line that has one and the lowest reason that it has.
//!
//! What is only tested or not said: that memory suffices, and how long a call takes. The tests stand
//! in `run_trials`.
#![tactic(auto)]

mod letters;
mod lines;
mod past;
mod script;
mod script_lines;
mod script_reader;
mod type_lines;
mod words;

pub use gc_graph::NoMemory;
pub use line_words::number_below;
pub use report_text::{Pieces, print_line};
pub use script::{Script, ScriptFault, read_script};
pub use text_devices::{
    Failed, ListSink, ListSource, ReadError, Sink, Source, SteadySink, SteadySource, read_whole,
};
