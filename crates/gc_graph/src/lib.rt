//! # The graph that a heap stands for
//!
//! What it is: the meaning of a heap script. A heap is a graph of numbered nodes; a command is a
//! step from one state of the graph to the next; a report is the text of a lawful run. Nothing
//! here knows of words, mark bits or mark lists: those belong to the crates above, which prove
//! that what they do is a step.
//!
//! The parts: `Kind` and `Value` (fields and what they hold), `Command`, `Order` and `Want` (what a
//! script asks), `Line` and `Refusal` (what a report answers), `Entry`, `Op` and `Reply` (the
//! region's history), `Action` and `ActionKind` (what callbacks do), `Phase`, `NoMemory`;
//! `Graph` and `reach_check`, by which a program checks a set of nodes; `laws`. The definitions
//! stand in `specs/`, to be read in the order of `specs/Lib.antt`.
//!
//! What is proved: the laws of `reach`, of `laws`, and of the files whose names begin with `laws_of`,
//! each the contract of a function that does nothing, and that `reach_check` is true exactly where a
//! set holds the roots and is closed. The laws of steps and runs ask for a heap that has a page.
//!
//! What is only tested or not said: the definitions are what a reader has to believe. The tests
//! of the program compare them with reports that were written by hand.
#![tactic(auto)]

mod action;
mod checking;
mod command;
mod graphs;
mod kind;
mod laws;
mod laws_of_accesses;
mod laws_of_cycles;
mod laws_of_handles;
mod laws_of_lives;
mod laws_of_marking;
mod laws_of_prefinalizers;
mod laws_of_regions;
mod laws_of_reports;
mod laws_of_sweeping;
mod laws_of_threads;
mod laws_of_totals;
mod laws_of_weak_callbacks;
mod line;
mod members;
mod memory;
mod phase;
mod reach;
mod region;

pub use action::{Action, ActionKind};
pub use checking::reach_check;
pub use command::{Command, Order, Want};
pub use graphs::Graph;
pub use kind::{Kind, Value};
pub use laws::{
    actions_leave_nodes, empty_is_valid, full_leaves_rest, lines_read_back, may_is_bounded,
    memory_leaves_all, orders_keep_valid, pages_have_one_bucket, pause_bounds_meet,
    placement_is_free, refused_for_the_first_reason, refused_leaves_all, replies_are_of_one_thread,
    report_reads_back, runs_are_replayed, scripts_are_in_ranges, step_keeps_valid,
    sweeps_finalise_dead, texts_are_judged, weak_callbacks_are_of_version_two,
};
pub use laws_of_accesses::{
    commands_are_answered_in_kind, new_objects_are_empty, slots_are_copied, steps_leave_the_rest,
    steps_stay_in_their_family, written_is_read_back,
};
pub use laws_of_cycles::{
    cycles_go_in_order, hits_are_kept, last_registered_runs_first, live_holders_are_cleared,
    pauses_count_nodes, pauses_count_once, steps_count_their_lines, steps_tell_what_is_left,
    weak_clearing_spares_the_live,
};
pub use laws_of_handles::{last_lines_mean, slots_name_the_live, weak_slots_tell_lives};
pub use laws_of_lives::{lives_end_once, nodes_stay_put};
pub use laws_of_marking::{kept_is_accounted_for, precise_collection_is_exact};
pub use laws_of_prefinalizers::{
    actions_write_one_field, new_objects_are_registered, pauses_run_prefinalizers,
};
pub use laws_of_regions::{calls_change_their_slot, steps_follow_the_history};
pub use laws_of_reports::{lines_have_numbers, run_reads_back, summary_reads_back};
pub use laws_of_sweeping::{
    finalised_are_told_first, placed_in_last_page, placement_is_one, sweeps_go_by_pages,
    sweeps_tell_their_pages,
};
pub use laws_of_threads::{
    entries_are_of_their_threads, entries_are_told_once, joins_tell_all, lawful_history_is_told,
    orders_wait_for_their_thread, runs_keep_slots, steps_count, steps_leave_threads,
    steps_make_own_entries, threads_do_their_orders,
};
pub use laws_of_totals::{counts_tell_what_is_held, runs_count_commands, totals_are_of_their_time};
pub use laws_of_weak_callbacks::pauses_run_weak_callbacks;
pub use line::{Line, Refusal};
pub use memory::NoMemory;
pub use phase::Phase;
pub use reach::reach_is_least;
pub use region::{Entry, Op, Reply};
