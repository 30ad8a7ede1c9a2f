// Gates for the threads of a script.

use std::sync::atomic::{AtomicU64, Ordering};
use std::thread;
use thread_gate::Gate;

/// The point before an order.
const BEFORE_ORDER: u32 = 5;

/// Counts how often each thread passes before an order, and all other passes.
#[derive(Drop)]
pub(crate) struct Counts {
    threads: [AtomicU64; 8],
    others: AtomicU64,
}

impl Counts {
    pub(crate) fn new() -> Counts {
        Counts {
            threads: [
                AtomicU64::new(0),
                AtomicU64::new(0),
                AtomicU64::new(0),
                AtomicU64::new(0),
                AtomicU64::new(0),
                AtomicU64::new(0),
                AtomicU64::new(0),
                AtomicU64::new(0),
            ],
            others: AtomicU64::new(0),
        }
    }

    /// Whether threads 1 to 8 passed so often, and nobody else did.
    pub(crate) fn are(&self, wanted: &[u64; 8]) -> bool {
        for i in 0..8 {
            if self.threads[i].load(Ordering::SeqCst) != wanted[i] {
                return false;
            }
        }
        self.others.load(Ordering::SeqCst) == 0
    }
}

impl Gate for Counts {
    fn pass(&self, worker: u32, point: u32) {
        let count = match worker {
            101..=108 if point == BEFORE_ORDER => &self.threads[(worker - 101) as usize],
            _ => &self.others,
        };
        count.fetch_add(1, Ordering::SeqCst);
    }
}

/// Holds who comes to one pass, which counts from 1, until it is opened or so many turns are over.
#[derive(Drop)]
pub(crate) struct Barrier {
    held: u64,
    turns: u32,
    passes: AtomicU64,
    opened: AtomicU64,
}

impl Barrier {
    pub(crate) fn new(held: u64, turns: u32) -> Barrier {
        Barrier {
            held,
            turns,
            passes: AtomicU64::new(0),
            opened: AtomicU64::new(0),
        }
    }

    /// Whether somebody comes to the pass that is held.
    pub(crate) fn is_reached(&self) -> bool {
        for _ in 0..self.turns {
            if self.passes.load(Ordering::SeqCst) >= self.held {
                return true;
            }
            thread::yield_now();
        }
        false
    }

    pub(crate) fn open(&self) {
        self.opened.store(1, Ordering::SeqCst);
    }

    /// How often it was passed.
    pub(crate) fn passes(&self) -> u64 {
        self.passes.load(Ordering::SeqCst)
    }

    fn hold(&self) {
        for _ in 0..self.turns {
            if self.opened.load(Ordering::SeqCst) != 0 {
                return;
            }
            thread::yield_now();
        }
    }
}

impl Gate for Barrier {
    fn pass(&self, worker: u32, point: u32) {
        let _ = (worker, point);
        if self.passes.fetch_add(1, Ordering::SeqCst).wrapping_add(1) == self.held {
            self.hold();
        }
    }
}
