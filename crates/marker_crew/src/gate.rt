// Where a marker may be held.

use thread_gate::Gate;

/// The point before a claim.
pub(crate) const BEFORE_CLAIM: u32 = 1;

/// The point after an object was traced.
pub(crate) const AFTER_OBJECT: u32 = 2;

/// How a worker drains: at which gate, and under which number.
#[derive(Drop)]
pub(crate) struct Manner<'a, G> {
    pub(crate) gate: &'a G,
    pub(crate) worker: u32,
}

impl<G: Gate> Manner<'_, G> {
    /// Waits as long as the gate holds the worker at the point.
    pub(crate) fn pass(&self, point: u32) {
        self.gate.pass(self.worker, point);
    }
}
