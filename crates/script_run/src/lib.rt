//! # One run: from the bytes of a script to the bytes of its report
//!
//! What it is: all that the program does between its words, its input and its output, over any
//! devices. `run` reads a heap script or generates one, runs its commands on one heap, and writes the
//! report of the run, or its summary.
//!
//! The parts: `run` in `one_run` (from the words and the bytes of a script to what is printed),
//! `own_heap` (the heap of a script), `report` (the types, the outcomes and the end; or one line at the
//! end), `outcome_lines` (each command's outcome is printed before the next command, and the text goes
//! out in large pieces), `callbacks` (the five of the program), `adapters` (devices over the standard
//! streams), `status` (how a run ends, and what is told of it).
//!
//! What is proved, at `run`: after Done the script is the generated one, and the input was let alone,
//! or the input was read to its end and is a script within the limits. What was written is what is
//! printed of a lawful run of it, whose state and history the closed heap in `kept` has. The totals
//! that a thread was told are those of one state since the threads went, never older ones after newer
//! ones. What was taken of a thread that was not joined are the entries of its first orders, which
//! closing shows. After a failed write a beginning of such a text was written, and after every other
//! answer nothing. Too long and a faulty line are answered exactly where they are so. Usage is answered
//! only where the words are refused, and such words give nothing but that or want of memory; a device's
//! fault only where its count has risen, and with any other answer no call of that device has failed.
//! All of it holds however many markers the words ask for, and whatever they and the gate do. What the
//! heap is asked is in the ranges that it wants: laws say so of every script.
//! `run_with`, `run_commands` and `heap_engine`'s `Heap::act` are the way down.
//!
//! What is only tested or not said: that memory suffices, where a piece of the report ends, and what
//! the words and the standard streams give and take (the adapters tell no bytes).
#![tactic(auto)]

mod adapters;
mod callbacks;
mod one_run;
mod outcome_lines;
mod own_heap;
mod report;
mod status;

pub use adapters::{StdinSource, StdoutSink};
pub use callbacks::{Ran, run_program, run_program_behind};
pub use heap_engine::{FreeGate, Gate};
pub use one_run::run;
pub use status::{Ending, Status, end};
