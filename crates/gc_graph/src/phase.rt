// Where a heap stands in its cycle.

/// `Marking` lasts from a start to its pause, `Sweeping` from a pause until all pages are swept.
#[derive(Clone, Copy, Drop)]
pub enum Phase {
    Idle,
    Marking,
    Sweeping,
}
