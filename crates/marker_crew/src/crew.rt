// A crew of markers, which is started and joined as one.

ghost use Rattle.std.specs.Prelude.{◌≡◌, ◌≤◌, ◌+◌, ◌==◌, not, All, IfOk, length, map, replicate, slice_index_or};
ghost use Rattle.std.specs.Prelude.{vec_capacity, [], None};
ghost use Rattle.std.specs.Arc.{arc_value};
ghost use Rattle.std.specs.Borrow.{sem};
ghost use Rattle.pair_notes.specs.Notes.{no_notes, notes_cleared};
ghost use Rattle.marker_crew.specs.Crews.{IsCrew, started_with, HasJoined};
ghost use Rattle.marker_crew.specs.Lending.{LendsOwnNotes, LendsNotes};

use crate::endings::{Begun, Ended};
use crate::runners::{Runner, started, wait_for};
use gc_graph::NoMemory;
use mark_worklist::Share;
use page_words::{MarkerSeat, MutatorSeat, Words};
use pair_notes::Pairs;
use std::alloc::Global;
use std::marker::Model;
use std::mem;
use std::sync::Arc;
use std::thread::Threads;
use thread_gate::Gate;
use type_table::TypeTable;

/// What the drains of a crew tell together: how many objects were claimed and traced, and whether a
/// push or a note was refused.
#[derive(Clone, Copy, Debug, Drop, PartialEq)]
pub struct CrewResult {
    pub traced: u32,
    pub overflow: bool,
}

/// Up to eight markers. A crew is started, and then joined, as often as one likes.
///
/// | the crew | has |
/// |---|---|
/// | doesn't run | the notes of the owner and of each marker, and the shares that a run brought back |
/// | runs | the owner's notes; seats, shares and the other notes are on the markers' threads |
#[derive(Drop)]
pub struct Crew {
    alloc: Global,
    markers: u32,
    notes: Vec<Pairs>,
    shares: Vec<Share>,
    runners: Vec<Runner>,
}

impl Model for Crew {
    ghost use Rattle.std.specs.Prelude.{◌≡◌, ◌≤◌, ◌<◌, ◌+◌, length, map, vec_capacity};
    ghost use Rattle.marker_crew.specs.Crews.{CrewState, IsCrew};
    ghost use Rattle.marker_crew.specs.Runners.{began_as};

    ghost Value = { CrewState };

    ghost view = { λ c. record {
      markers = c.markers;
      notes = c.notes.items;
      shares = c.shares.items;
      running = map began_as c.runners.items;
    } };

    ghost invariant = { λ c. IsCrew (record {
      markers = c.markers;
      notes = c.notes.items;
      shares = c.shares.items;
      running = map began_as c.runners.items;
    })
        × (c.markers + 1 ≤ vec_capacity c.notes)
        × (c.markers ≤ vec_capacity c.runners)
        × (length c.runners.items ≤ vec_capacity c.shares) };
}

impl Crew {
    /// A crew of so many markers, with all the memory that it ever takes besides its threads'. Want of
    /// memory is free.
    pub fn new(alloc: Global, markers: u32) -> Result<Crew, NoMemory>
        requires few { markers ≤ 8 }
        ensures { IfOk result (λ crew. crew ≡ record {
          markers = markers;
          notes = replicate (markers + 1) no_notes;
          shares = [];
          running = [];
        }) }
    {
        let notes = groups(alloc, markers + 1)?;
        let runners = Vec::with_capacity(alloc, markers as usize)?;
        Ok(Crew {
            alloc,
            markers,
            notes,
            shares: Vec::new(alloc),
            runners,
        })
    }

    /// Starts each marker with a seat, a share and a group of notes, the first with the first ones, and
    /// so on, to drain as many items at most as the heap has words. Where a thread is refused, or a
    /// clone for it, the marker drains on the caller's. Shares that a run brought back, and that
    /// nobody took, are dropped.
    pub fn start<G: Gate + Send + Sync + 'static, R: Threads>(
        &mut self,
        rt: &R,
        words: &Arc<Words>,
        types: &Arc<TypeTable>,
        mut seats: Vec<MarkerSeat>,
        mut shares: Vec<Share>,
        gate: &Arc<G>,
    )
        requires idle { self.old.running ≡ [] }
        requires seats { length seats.items ≡ self.old.markers }
        requires shares { length shares.items ≡ self.old.markers }
        requires heap { All (λ v. v.heap ≡ arc_value words.now) seats.items }
        requires types { All (λ v. arc_value types.now ≡ v.types) seats.items }
        requires hands { All (λ v. v.hand ≡ None) seats.items }
        ensures { self.new ≡ started_with self.old seats.items shares.items }
    {
        for marker in 0..self.markers {
            let begun = Begun {
                seat: seats.remove(0),
                share: shares.remove(0),
                notes: self.notes.remove(1),
            };
            self.runners
                .push_reserved(started(rt, words, types, begun, marker + 1, gate));
        }
        self.shares = shares;
    }

    /// Waits for each marker in their order and takes back its seat, its share and its notes. It
    /// doesn't tell them to stop.
    pub fn join<R: Threads>(&mut self, rt: &R, words: &Words, seat: &mut MutatorSeat) -> CrewResult
        requires heap { seat.old.heap ≡ words.now }
        requires same { All (λ m. m.seat.heap ≡ words.now) self.old.running }
        ensures joined { HasJoined self.old seat.old self.new seat.new result }
        ensures lent { seat.new.lent + length self.old.running ≡ seat.old.lent }
    {
        seat.bodies_lie_apart();
        let mut result = CrewResult {
            traced: 0,
            overflow: false,
        };
        for _marker in 0..self.runners.len() {
            let Ended {
                seat: marker,
                share,
                notes,
                drained,
            } = wait_for(rt, self.runners.remove(0));
            words.join(seat, marker);
            self.shares.push_reserved(share);
            self.notes.push_reserved(notes);
            result.traced += drained.traced;
            result.overflow = result.overflow || drained.overflow;
        }
        result
    }

    /// The owner's own notes.
    pub fn own_notes(&mut self) -> &mut Pairs
        ensures* writes_back { sem 𝓛 (LendsOwnNotes self.entry result) }
        ensures value { result.now ≡ slice_index_or self.old.notes 0 result.now }
    {
        &mut self.notes[0]
    }

    /// The groups of notes that are here, the owner's first.
    pub fn notes(&mut self) -> &mut [Pairs]
        ensures* writes_back { sem 𝓛 (LendsNotes self.entry result) }
        ensures value { result.now ≡ self.old.notes }
    {
        self.notes.as_mut_slice()
    }

    /// Clears each group of notes that is here.
    pub fn clear_notes(&mut self)
        ensures { self.new ≡ record self.old { notes = map notes_cleared self.old.notes } }
    {
        for i in 0..self.notes.len() {
            self.notes[i].clear();
        }
    }

    /// Gives the shares away that a run brought back.
    pub fn shares(&mut self) -> Vec<Share>
        ensures given { result.items ≡ self.old.shares }
        ensures rest { self.new ≡ record self.old { shares = [] } }
    {
        if self.is_running() {
            return Vec::new(self.alloc);
        }
        mem::replace(&mut self.shares, Vec::new(self.alloc))
    }

    /// Whether the markers were started, and not joined since. Where there are none it never runs.
    pub fn is_running(&self) -> bool
        ensures runs { result ≡ not (length self.now.running == 0) }
        ensures whole { IsCrew self.now }
    {
        !self.runners.is_empty()
    }

    /// How many markers it has.
    pub fn markers(&self) -> u32
        ensures value { result ≡ self.now.markers }
        ensures few { result ≤ 8 }
    {
        self.markers
    }
}

/// So many groups without notes.
fn groups(alloc: Global, count: u32) -> Result<Vec<Pairs>, NoMemory>
    ensures empty { IfOk result (λ made. made.items ≡ replicate count no_notes) }
    ensures room { IfOk result (λ made. count ≤ vec_capacity made) }
{
    let mut made = Vec::with_capacity(alloc, count as usize)?;
    for _group in 0..count {
        made.push_reserved(Pairs::new(alloc));
    }
    Ok(made)
}
