//! # Trials of the region
//!
//! What it is: the tests of the region, of the lock that its history is behind, of the board on which
//! totals are published, and of the threads of a script that use them, and nothing else.
//!
//! The parts, each named for what it tries. Of the lock: `lock_turns` (two threads at once) and
//! `lock_passes`. Of the board: `published_totals` (an owner and two readers at once). Of the region:
//! `region_slots`, `region_pauses`, `region_passes`, `region_reads`, `region_threads` (two threads at
//! once) and `region_crowd` (eight and an owner at once, whose rounds are in `region_rounds`, and whose
//! history `region_replay` replays), all with the calls of `region_calls`. Of the threads of a script:
//! `script_threads` (eight at once, in rounds, and dismissed) and `script_totals` (what they read while
//! their owner publishes), both on a `script_stage`, with the gates of `script_gates`, and by the lines
//! of `script_replies`.
//!
//! What is proved: that the tests are safe and call only what they may.
//!
//! What is only tested or not said: each expected value was worked out by hand.
#![tactic(auto)]

#[cfg(test)]
mod lock_passes;
#[cfg(test)]
mod lock_turns;
#[cfg(test)]
mod published_totals;
#[cfg(test)]
mod region_calls;
#[cfg(test)]
mod region_crowd;
#[cfg(test)]
mod region_passes;
#[cfg(test)]
mod region_pauses;
#[cfg(test)]
mod region_reads;
#[cfg(test)]
mod region_replay;
#[cfg(test)]
mod region_rounds;
#[cfg(test)]
mod region_slots;
#[cfg(test)]
mod region_threads;
#[cfg(test)]
mod script_gates;
#[cfg(test)]
mod script_replies;
#[cfg(test)]
mod script_stage;
#[cfg(test)]
mod script_threads;
#[cfg(test)]
mod script_totals;
