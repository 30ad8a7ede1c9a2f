// The history of the region: the handles that threads share
// (`include/cppgc/cross-thread-persistent.h`).

/// What was done to the region's slots. `Export`, `Import`, `Start` and `Pause` are the owner's,
/// the others a thread's. The number `cleared` has the bit 2^x for each weak slot x that the pause
/// cleared.
#[derive(Clone, Copy, Drop)]
pub enum Op {
    Export { slot: u32, node: u32 },
    Import { slot: u32 },
    Start,
    Pause { cleared: u32 },
    Copy { from: u32, into: u32 },
    Clear { slot: u32 },
    Weaken { slot: u32 },
    Upgrade { from: u32, into: u32 },
}

/// What a call on the region answered. After `NoMemory` nothing has changed.
#[derive(Clone, Copy, Drop)]
pub enum Reply {
    Done,
    Node(u32),
    Null,
    NoMemory,
}

/// One entry of the history. The owner is thread 0.
#[derive(Clone, Copy, Drop)]
pub struct Entry {
    pub thread: u32,
    pub op: Op,
    pub reply: Reply,
}
