// A gate that holds each thread for drawn times.

use heap_script::NoMemory;
use script_run::Gate;
use std::alloc::Global;
use std::sync::Arc;
use std::sync::atomic::{AtomicU64, Ordering};
use std::{hint, thread};

/// More than the number of any worker.
const WORKERS: u32 = 128;

/// Holds a thread for a time that is drawn from the seed, the worker, the point, and how often that
/// worker came: mostly not at all, at times for some turns of others, and now and then for long. It
/// never waits for what another thread does.
#[derive(Drop)]
pub(crate) struct Delays {
    seed: u64,
    /// How often each worker came.
    passes: Vec<AtomicU64>,
}

impl Delays {
    fn new(alloc: Global, seed: u64) -> Result<Delays, NoMemory> {
        let mut passes = Vec::new(alloc);
        for _worker in 0..WORKERS {
            passes.push(AtomicU64::new(0))?;
        }
        Ok(Delays { seed, passes })
    }

    /// As all threads of a run share it.
    pub(crate) fn shared(alloc: Global, seed: u64) -> Result<Arc<Delays>, NoMemory> {
        let gate = Delays::new(alloc, seed)?;
        Ok(Arc::new(alloc, gate)?)
    }

    /// The number that is drawn for this pass.
    fn drawn(&self, worker: u32, point: u32) -> u64 {
        let passes = match self.passes.get((worker % WORKERS) as usize) {
            Some(passes) => passes.fetch_add(1, Ordering::Relaxed),
            None => 0,
        };
        let who = (u64::from(worker) << 8) | u64::from(point);
        mixed(mixed(mixed(self.seed) ^ who) ^ passes)
    }
}

impl Gate for Delays {
    fn pass(&self, worker: u32, point: u32) {
        let drawn = self.drawn(worker, point);
        let length = drawn >> 8;
        match drawn % 32 {
            0..=4 => yield_for(1 + length % 8),
            5..=8 => spin_for(1_000 + length % 8_000),
            9 => spin_for(10_000 + length % 40_000),
            _ => {}
        }
    }
}

fn yield_for(turns: u64) {
    for _turn in 0..turns {
        thread::yield_now();
    }
}

fn spin_for(turns: u64) {
    for _turn in 0..turns {
        hint::spin_loop();
    }
}

/// A number to which each bit of this one adds.
fn mixed(number: u64) -> u64 {
    let spread = (number ^ (number >> 29)).wrapping_mul(0x9E37_79B9_7F4A_7C15);
    let mixed = (spread ^ (spread >> 32)).wrapping_mul(0xBF58_476D_1CE4_E5B9);
    mixed ^ (mixed >> 31)
}
