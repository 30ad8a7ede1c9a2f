// Runs that write the same at each schedule, while a gate holds everybody for drawn times.

use super::delays::Delays;
use super::runs::writes_one_of;
use std::alloc::Global;
use std::sync::Wait;
use std::thread::Threads;

/// A script, with the words of its run, that writes the same whatever its markers and threads do.
#[derive(Clone, Copy, Drop)]
pub(crate) struct Settled {
    pub(crate) words: &'static str,
    pub(crate) script: &'static [u8],
    pub(crate) report: &'static str,
}

/// Whether the run of this seed writes what the script has to.
fn is_settled<R: Threads + Wait + Copy + Send + 'static>(
    rt: &R,
    alloc: Global,
    seed: u32,
    settled: &Settled,
) -> bool {
    match Delays::shared(alloc, u64::from(seed)) {
        Ok(gate) => writes_one_of(
            rt,
            alloc,
            settled.words,
            settled.script,
            &gate,
            settled.report,
        ),
        Err(_) => false,
    }
}

/// The first seed of so many whose run writes something else.
pub(crate) fn first_unsettled<R: Threads + Wait + Copy + Send + 'static>(
    rt: &R,
    alloc: Global,
    settled: &Settled,
    seeds: u32,
) -> Option<u32> {
    for seed in 0..seeds {
        if !is_settled(rt, alloc, seed, settled) {
            return Some(seed);
        }
    }
    None
}
