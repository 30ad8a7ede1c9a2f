// Passes: who makes entries, and how much of the history it has seen.

ghost use Rattle.std.specs.Prelude.{◌≤◌, ◌^◌, length};
ghost use Rattle.cross_thread_region.specs.Calls.{AreByRight};
ghost use Rattle.cross_thread_region.specs.Histories.{entries_of};
ghost use Rattle.gc_graph.specs.History.{IsLegal};

use crate::chronicle::Chronicle;
use region_lock::LockPass;
use std::marker::Model;

/// A history, or what a pass has seen of it. It is never made.
#[derive(Drop)]
pub struct Histories {
    none: u8,
}

impl Model for Histories {
    ghost use Rattle.std.specs.Prelude.{List, []};
    ghost use Rattle.cross_thread_region.specs.declared.chronicle.PlacedEntry.{PlacedEntry};

    ghost Value = { List PlacedEntry };

    ghost view = { λ histories. [] };
}

/// A pass has a number, which its entries name, and has seen the first entries of the history. What
/// they are, and which passes were split off it, is known to contracts alone. Each thread has one of
/// its own.
#[derive(Drop)]
pub struct Pass {
    pub(crate) number: u32,
    /// How many entries it has seen.
    pub(crate) count: u64,
    pub(crate) lock: LockPass<Chronicle>,
}

impl Model for Pass {
    ghost use Rattle.cross_thread_region.specs.Calls.{PassView};
    ghost use Rattle.cross_thread_region.specs.Contents.{HasSeen};

    ghost Value = { PassView };

    ghost view = { λ p. p.lock };

    ghost invariant = { λ p. HasSeen p.number p.count p.lock };
}

impl Pass {
    /// What the pass has seen is legal, has at most 2 ^ 30 entries, and each of another number than 0
    /// is an order of a thread. Whoever calls this has the law.
    pub fn is_legal(&self)
        ensures legal { IsLegal (entries_of self.now.seen) }
        ensures right { AreByRight self.now.seen }
        ensures few { length self.now.seen ≤ 2 ^ 30 }
    {
        let _ = &self.count;
    }
}
