//! # Trials of the heap's words
//!
//! What it is: the tests of `core_steps`, `page_words` and `page_space`, and nothing else. They stand in
//! a crate of their own, so that no other crate waits for them.
//!
//! The parts, each named for what it tries. Of the step machine: `schedules` (lists of steps, and
//! whether it takes all of one, or else refuses its last step). Of markers: `claims` (two markers that
//! claim one object at once) and `traces` (a marker that traces, is told to stop, and gives its seat
//! back). Of the pages: `places` (small heaps), `ends` (the first and the last word of a heap) and
//! `histories` (random lives of heaps). `aged` is a heap whose older objects are dead, and `plain` the
//! rule of where a new object goes, as a walk over all words.
//!
//! What is proved: that the tests are safe and call only what they may.
//!
//! What is only tested or not said: each expected value was worked out by hand. No clause of
//! `page_words` speaks of two seats at once, so that just one of two markers gets an object is tested,
//! over many tries on real threads. The schedules say nothing that the machine's definitions don't
//! say; they show that these say what was meant. How long a search takes is measured by `bench`.
#![tactic(auto)]

#[cfg(test)]
mod aged;
#[cfg(test)]
mod claims;
#[cfg(test)]
mod ends;
#[cfg(test)]
mod histories;
#[cfg(test)]
mod places;
#[cfg(test)]
mod plain;
#[cfg(test)]
mod schedules;
#[cfg(test)]
mod traces;
