// Markers beside the owner: they are started with lists to share, the owner steps beside them, and they
// are joined.

ghost use Rattle.std.specs.Prelude.{◌≡◌, ℕ, ◌<◌, ◌≤◌, Bool, List, true, false};
ghost use Rattle.std.specs.Prelude.{[], length, replicate, vec_capacity, IfOk, MatchOption};
ghost use Rattle.mark_worklist.specs.Refusals.{TellsRefused};
ghost use Rattle.page_space.specs.Space.{IsSeatOf};
ghost use Rattle.page_words.specs.Markers.{new_marker};
ghost use Rattle.marker_crew.specs.BodyGraph.{PlacesDiffer};
ghost use Rattle.atomic_pause.specs.UnderWay.{IsUnderWay};
ghost use Rattle.marker_crew.specs.Crews.{IsCrew};
ghost use Rattle.heap_objects.specs.Crews.{AreListsFor, Relists, IsJoined, lent_often};
ghost use Rattle.heap_objects.specs.Marking.{HasFound, grey_of, pushes_in, notes_in};
ghost use Rattle.heap_objects.specs.Marks.{GoesOnOrRests, CrewIsLent, HasMarking};
ghost use Rattle.heap_objects.specs.Objects.{setup_of_objects};

use crate::marking::{Grey, nowhere, refused_pushes, tell_refused};
use crate::objects::Objects;
use gc_graph::NoMemory;
use mark_worklist::{Marking, Share, Worklist};
use marker_crew::Gate;
use page_space::Space;
use page_words::{MarkerSeat, MutatorSeat, Words};
use std::mem;
use std::sync::Arc;
use std::thread::Threads;

/// What a cycle with markers takes before it begins: a list whose shares are for them, and room for their
/// seats.
#[derive(Drop)]
pub struct CrewLists {
    pub(crate) list: Worklist,
    pub(crate) shares: Vec<Share>,
    pub(crate) seats: Vec<MarkerSeat>,
}

impl Objects {
    /// What a cycle with the heap's markers takes; nothing where the heap has none. Want of memory is
    /// free.
    pub fn crew_lists(&self) -> Result<Option<CrewLists>, NoMemory>
        ensures { IfOk result (λ lists. MatchOption lists (self.now.grey.markers ≡ 0)
            (AreListsFor self.now.grey.markers)) }
    {
        let markers = self.grey.crew.markers();
        if markers == 0 {
            return Ok(None);
        }
        let (list, shares) = Worklist::new(self.alloc, markers)?;
        let seats = Vec::with_capacity(self.alloc, markers as usize)?;
        Ok(Some(CrewLists {
            list,
            shares,
            seats,
        }))
    }

    /// Starts the heap's markers, which share the list with the owner from now on: what was listed until
    /// now goes on it. A seat is lent to each. Where a thread can't be started its marker runs to its end
    /// in this call.
    #[inline(never)]
    pub fn start_crew<R: Threads, G: Gate + Send + Sync + 'static>(
        &mut self,
        rt: &R,
        lists: CrewLists,
        gate: &Arc<G>,
    )
        requires marks { (may : List Bool) × HasMarking may self.old }
        requires home { self.old.grey.running ≡ [] }
        requires lists { AreListsFor self.old.grey.markers lists }
        ensures marks { (may : List Bool) → HasMarking may self.old → HasMarking may self.new }
        ensures running { length self.new.grey.running ≡ self.old.grey.markers }
        ensures lent { self.new.seat.lent ≡ self.old.grey.markers }
        ensures marked { self.new.seat.marked ≡ self.old.seat.marked }
        ensures traced { self.new.grey.traced ≡ self.old.grey.traced }
        ensures since { self.new.grey.since ≡ self.old.grey.since }
        ensures nodes { self.new.nodes ≡ self.old.nodes }
        ensures setup { setup_of_objects self.new ≡ setup_of_objects self.old }
    {
        let CrewLists {
            list,
            shares,
            mut seats,
        } = lists;
        self.grey.earlier = refused_pushes(&self.grey);
        self.grey.found = nowhere();
        let alone = mem::replace(&mut self.grey.marking.list, list);
        relist(&mut self.grey.marking, alone);
        let words = self.space.words();
        lend(words, &mut self.seat, &mut seats, self.grey.crew.markers());
        self.grey
            .crew
            .start(rt, words, &self.types, seats, shares, gate);
    }

    /// Stops the heap's markers where they run, and joins them, so that no seat is lent any more. It is
    /// called before the heap is let go.
    pub fn join_crew<R: Threads>(&mut self, rt: &R)
        requires marks { GoesOnOrRests self.old }
        ensures stopped { self.new.grey.running ≡ [] }
        ensures lent { self.new.seat.lent ≡ 0 }
        ensures nodes { self.new.nodes ≡ self.old.nodes }
        ensures setup { setup_of_objects self.new ≡ setup_of_objects self.old }
    {
        self.seat.bodies_lie_apart();
        self.space.lasts_while_objects_stay();
        if self.grey.crew.is_running() {
            join_if_running(rt, &self.space, &mut self.seat, &mut self.grey);
        }
    }
}

/// What a pause begins with: markers that run are stopped and joined. It answers how many objects these
/// traced.
pub(crate) fn join_if_running<R: Threads>(
    rt: &R,
    space: &Space,
    seat: &mut MutatorSeat,
    grey: &mut Grey,
) -> u32
    requires heap { IsSeatOf space.now seat.old }
    requires way { IsUnderWay seat.old grey.old.marking (grey_of grey.old).notes }
    requires crew { CrewIsLent seat.old (grey_of grey.old) }
    requires differ { PlacesDiffer seat.old.bodies }
    requires pushes { TellsRefused
        (record { told = false; count = (grey_of grey.old).since.pushes })
        (pushes_in (grey_of grey.old)) }
    requires notes { TellsRefused
        (record { told = false; count = (grey_of grey.old).since.notes })
        (notes_in (grey_of grey.old)) }
    requires found { HasFound seat.old (grey_of grey.old) }
    ensures joined { IsJoined seat.old (grey_of grey.old) seat.new grey.new result }
    ensures none { grey.old.crew.running ≡ [] → result ≡ 0 }
{
    seat.bodies_lie_apart();
    if grey.crew.is_running() {
        stop_and_join(rt, space, seat, grey)
    } else {
        0
    }
}

/// Stops the markers and joins them: what they know the owner knows then, and what they left on their
/// lists and noted is left to it. It answers how many objects they traced.
fn stop_and_join<R: Threads>(rt: &R, space: &Space, seat: &mut MutatorSeat, grey: &mut Grey) -> u32
    requires heap { IsSeatOf space.now seat.old }
    requires running { 0 < length grey.old.crew.running }
    requires whole { IsCrew grey.old.crew }
    requires way { IsUnderWay seat.old grey.old.marking (grey_of grey.old).notes }
    requires crew { CrewIsLent seat.old (grey_of grey.old) }
    requires differ { PlacesDiffer seat.old.bodies }
    requires pushes { TellsRefused
        (record { told = false; count = (grey_of grey.old).since.pushes })
        (pushes_in (grey_of grey.old)) }
    requires notes { TellsRefused
        (record { told = false; count = (grey_of grey.old).since.notes })
        (notes_in (grey_of grey.old)) }
    requires found { HasFound seat.old (grey_of grey.old) }
    ensures joined { IsJoined seat.old (grey_of grey.old) seat.new grey.new result }
{
    space.words().set_stop(seat, true);
    let refused = grey.marking.list.refused();
    let joined = grey.crew.join(rt, space.words(), seat);
    let shares = grey.crew.shares();
    grey.marking.list.finish(shares);
    tell_refused(&mut grey.marking, refused);
    seat.bodies_lie_apart();
    joined.traced
}

/// Puts what stood on a list of the owner's alone on the one that it shares.
fn relist(marking: &mut Marking, mut alone: Worklist)
    requires whole { alone.whole ≡ true }
    ensures relisted { Relists alone.items [] marking.old marking.new }
{
    while let Some(place) = alone.pop() {
        marking.push(place);
    }
}

/// Lends so many seats.
fn lend(words: &Words, seat: &mut MutatorSeat, seats: &mut Vec<MarkerSeat>, count: u32)
    requires heap { seat.old.heap ≡ words.now }
    requires on { seat.old.on ≡ true }
    requires none { seats.old.items ≡ [] }
    requires room { count ≤ vec_capacity seats.old }
    ensures lent { seat.new ≡ lent_often count seat.old }
    ensures seats { seats.new.items ≡ replicate count (new_marker seat.old) }
{
    for _seat in 0..count {
        seats.push_reserved(words.split(seat));
    }
}
