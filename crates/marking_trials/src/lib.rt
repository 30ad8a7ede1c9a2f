//! # Trials of marking
//!
//! What it is: tests alone, of the writes of `member_fields` while marking goes on, of tracing in
//! `ephemerons`, of `marker_crew`, and of the index of `pair_notes`. They stand in a crate of their
//! own, so that no other crate waits for them.
//!
//! The parts, each named for what it tries: `barriers` (which of three objects are marked and listed
//! after each write), `tracing` (the first of two objects traced, and pairs that are overwritten after
//! they were noted), `draining` (one marker, and two on threads of their own), `crews` (crews of
//! markers, the owner's steps, and a marker that is held before its claim), `keys` (an index tells
//! every note of a key and no other, which no clause of `pair_notes` says). `small_heap` has the heap
//! of two objects that `tracing`, `draining` and `crews` begin with.
//!
//! What is proved: that the tests are safe and call only what they may. So what the calls ask for can
//! be met while marking goes on, on a heap that a `Space` holds.
//!
//! What is only tested or not said: each expected value was worked out by hand.
#![tactic(auto)]

#[cfg(test)]
mod barriers;
#[cfg(test)]
mod crews;
#[cfg(test)]
mod draining;
#[cfg(test)]
mod keys;
#[cfg(test)]
mod small_heap;
#[cfg(test)]
mod tracing;
