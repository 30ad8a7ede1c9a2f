// What a region of one thread makes of entries, written down plainly.

use gc_graph::{Entry, Op, Reply};

/// What a slot holds.
#[derive(Clone, Copy, Drop)]
enum Slot {
    Null,
    Strong(u32),
    Weak(u32),
}

/// The slots after some entries, and whether a start has no pause after it.
#[derive(Clone, Copy, Drop)]
pub(crate) struct Replay {
    slots: [Slot; 32],
    started: bool,
}

impl Replay {
    pub(crate) fn new() -> Replay {
        Replay {
            slots: [Slot::Null; 32],
            started: false,
        }
    }

    /// Whether the entry may be the next one. Its thread is answered what the slots hold, and what only the
    /// owner may do is the owner's.
    pub(crate) fn goes_on(&mut self, entry: Entry) -> bool {
        let may = match entry.op {
            Op::Export { .. } | Op::Import { .. } | Op::Start => entry.thread == 0,
            Op::Pause { cleared } => entry.thread == 0 && self.started && self.are_weak(cleared),
            _ => true,
        };
        let right = self.answers(entry.op, entry.reply);
        self.apply(entry.op);
        may && right
    }

    /// Whether the call is answered so.
    fn answers(&self, op: Op, reply: Reply) -> bool {
        match op {
            Op::Import { slot } => names(self.at(slot), reply),
            Op::Upgrade { from, .. } => names(self.at(from), reply),
            _ => matches!(reply, Reply::Done),
        }
    }

    fn apply(&mut self, op: Op) {
        match op {
            Op::Export { slot, node } => self.set(slot, Slot::Strong(node)),
            Op::Import { .. } => {}
            Op::Start => self.started = true,
            Op::Pause { cleared } => {
                self.started = false;
                self.empty(cleared);
            }
            Op::Copy { from, into } => self.set(into, self.at(from)),
            Op::Clear { slot } => self.set(slot, Slot::Null),
            Op::Weaken { slot } => self.set(slot, weakened(self.at(slot))),
            Op::Upgrade { from, into } => self.set(into, upgraded(self.at(from))),
        }
    }

    /// Whether each slot whose bit is set is weak.
    fn are_weak(&self, cleared: u32) -> bool {
        for x in 0..32 {
            if (cleared >> x) % 2 == 1 && !matches!(self.at(x), Slot::Weak(_)) {
                return false;
            }
        }
        true
    }

    /// Each slot whose bit is set becomes null.
    fn empty(&mut self, cleared: u32) {
        for x in 0..32 {
            if (cleared >> x) % 2 == 1 {
                self.set(x, Slot::Null);
            }
        }
    }

    fn at(&self, x: u32) -> Slot {
        match self.slots.get(x as usize) {
            Some(slot) => *slot,
            None => Slot::Null,
        }
    }

    fn set(&mut self, x: u32, slot: Slot) {
        if let Some(at) = self.slots.get_mut(x as usize) {
            *at = slot;
        }
    }
}

fn weakened(slot: Slot) -> Slot {
    match slot {
        Slot::Strong(node) => Slot::Weak(node),
        other => other,
    }
}

fn upgraded(slot: Slot) -> Slot {
    match slot {
        Slot::Weak(node) => Slot::Strong(node),
        other => other,
    }
}

/// Whether a read of the slot is answered so.
fn names(slot: Slot, reply: Reply) -> bool {
    match slot {
        Slot::Null => matches!(reply, Reply::Null),
        Slot::Strong(node) => is_node(reply, node),
        Slot::Weak(node) => is_node(reply, node),
    }
}

fn is_node(reply: Reply, node: u32) -> bool {
    match reply {
        Reply::Node(named) => named == node,
        _ => false,
    }
}
