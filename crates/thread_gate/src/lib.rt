//! # The gate
//!
//! What it is: where a program may hold the threads of a heap. They pass it at points that
//! `docs/ARCHITECTURE.md` lists, each under a number of its own.
//!
//! The parts: `Gate`, which a test implements, and `FreeGate`, which holds nobody.
//!
//! What is proved: nothing. A gate has no contract, so no clause of a heap can rest on what one does.
//!
//! What is only tested or not said: that a thread passes the gate at its points.
#![tactic(auto)]

/// Holds a worker at a point, as a test may want to. Any thread of a heap calls it: its owner is worker
/// 0, its markers are 1 to 8, and the threads of its script 101 to 108.
pub trait Gate: Drop {
    fn pass(&self, worker: u32, point: u32);
}

/// Never holds anybody.
#[derive(Drop)]
pub struct FreeGate;

impl Gate for FreeGate {
    fn pass(&self, worker: u32, point: u32) {
        let _ = (worker, point);
    }
}
