// The region of a heap, with its owner's pass, the script's threads, and what was taken of the
// history.

ghost use Rattle.std.specs.Prelude.{◌≡◌, [], IfOk};
ghost use Rattle.heap_region.specs.Owned.{nothing_owned};

use cross_thread_region::{HeldHistory, Histories, Pass, Region};
use gc_graph::NoMemory;
use ghost_values::GhostValue;
use std::alloc::Global;
use std::marker::Model;
use std::sync::Arc;
use thread_queues::ThreadQueues;

/// How many slots there are.
const SLOTS: u32 = 32;

/// The region of a heap. Commands of the owner take its history in pieces, and joins tell the
/// entries that were taken. Only the thread that owns the heap calls it.
#[derive(Drop)]
pub struct OwnedRegion {
    pub(crate) region: Arc<Region>,
    pub(crate) pass: Pass,
    pub(crate) threads: ThreadQueues,
    /// How many entries were taken, of those that the pass has seen.
    pub(crate) taken: u32,
    /// How many entries joins have told, and how many they had before the last one.
    pub(crate) printed: u32,
    pub(crate) shown: u32,
    /// The history, from a join that tells lines to the next command: no thread runs then.
    pub(crate) held: Option<HeldHistory>,
    pub(crate) closed: bool,
}

impl Model for OwnedRegion {
    ghost use Rattle.heap_region.specs.Inside.{IsOwned, lines_told, taken_of};
    ghost use Rattle.std.specs.Arc.{arc_value};
    ghost use Rattle.std.specs.Prelude.{is_some};
    ghost use Rattle.heap_region.specs.Owned.{OwnedView};

    ghost Value = { OwnedView };

    ghost view = { λ r. record {
      taken = taken_of r.pass r.taken;
      out = r.pass.out;
      queues = r.threads.queues;
      running = r.threads.running;
      awaiting = r.threads.awaiting;
      last = r.threads.last;
      since = r.threads.since;
      printed = r.printed;
      told = lines_told (is_some r.held) r.threads.replies r.shown (taken_of r.pass r.taken);
      closed = r.closed;
    } };

    ghost invariant = { λ r. IsOwned (arc_value r.region) r.pass r.threads r.held r.taken r.printed
        r.shown r.closed };
}

impl OwnedRegion {
    /// A region whose slots are all null, and threads without orders, for whom four zeros are published.
    /// Want of memory is free.
    pub fn new(alloc: Global) -> Result<OwnedRegion, NoMemory>
        ensures { IfOk result (λ r. r ≡ nothing_owned) }
    {
        let (region, pass) = Region::new(alloc, SLOTS)?;
        let threads = ThreadQueues::new(alloc)?;
        Ok(OwnedRegion {
            region: Arc::new(alloc, region)?,
            pass,
            threads,
            taken: 0,
            printed: 0,
            shown: 0,
            held: None,
            closed: false,
        })
    }

    /// A command begins: what the last one told is told no more.
    pub fn begin(&mut self)
        ensures { self.new ≡ record self.old { told = [] } }
    {
        // Most commands find nothing held, and move nothing.
        if self.held.is_some() {
            self.end_turn();
        }
    }

    /// The history that a join holds is given back.
    #[inline(never)]
    fn end_turn(&mut self)
        ensures { self.new ≡ record self.old { told = [] } }
    {
        if let Some(held) = self.held.take() {
            self.region.end_look(&mut self.pass, held);
        }
    }

    /// What was taken of the history, for contracts alone.
    pub fn history(&self) -> GhostValue<Histories>
        ensures { result.value ≡ self.now.taken }
    {
        GhostValue::chosen(self)
    }
}
