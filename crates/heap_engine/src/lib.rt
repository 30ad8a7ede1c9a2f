//! # The heap engine
//!
//! What it is: a heap that does commands. It keeps its objects in the pages of `page_space`, and
//! each command is one step of the graph that `gc_graph` defines.
//!
//! The parts: `Heap`, `Config`, and `Core`, which has the model: `Parts` (of `heap_cycle`), among which
//! is the region with the threads, and an outcome. `commands` says which function does a command; these
//! stand by their subjects in `creating`, `fields`, `pairs`, `slots`, `stacking`, `cycles`, `totals`,
//! `region` and `threads`, and end the outcome. `publishing` tells threads what the heap holds after each
//! command. `since` is for contracts alone. Next down is `heap_cycle`.
//!
//! What is proved: `act` is a step from the heap's own state to its new state, for every command
//! that is allowed and stands in its section, and its lines are those of the step; the pieces that
//! the commands took are the region's history. Each node that is not finalised is the object with
//! its number, type, size, place, field words and extra words. Refusals and a full heap are answered
//! exactly where the step says so; prefinalizers, collections, calls on the region and orders alone
//! may want memory, and then nothing has changed. A pause line tells truly whether the heap was
//! walked. After a start each target of a strong slot is marked, and a seat is lent for each marker
//! until the pause. After a step that is done no node is marked and untraced, unless a push was refused
//! in the cycle; beside markers the owner's last pop and steal found nothing, or it took 2^32 - 1
//! items. Each item that it takes beside them it claims, finds traced or notes, unless a note was
//! refused. A heap that is closed has no marker and no thread that runs, and what it has taken of a
//! thread's entries are those of its first orders. The totals of each state are published; those that a
//! join tells are of states from the one before threads went to the one before it, and those of one
//! thread never get older.
//!
//! What is only tested or not said: that memory suffices, and how long a command takes.
#![tactic(auto)]

mod commands;
mod creating;
mod cycles;
mod fields;
mod heap;
mod heap_core;
mod pairs;
mod publishing;
mod region;
mod since;
mod slots;
mod stacking;
mod threads;
mod totals;

pub use heap::{Config, Heap};
pub use heap_cycle::{FreeGate, Gate};
