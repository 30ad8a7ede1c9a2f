// The parts of a heap, which commands take together.

use crate::cycle::Cycle;
use heap_roots::{Handles, Objects, OwnedRegion};

/// The parts of a heap. Each has a model, and contracts see what each of them is.
#[derive(Drop)]
pub struct Parts {
    pub objects: Objects,
    pub handles: Handles,
    pub cycle: Cycle,
    pub region: OwnedRegion,
}
