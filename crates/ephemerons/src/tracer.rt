// The owner's tracing on its way to the fixpoint: the words with the right to use them, and what it
// goes by. Its calls stand by what they do, in closing.rt, draining.rt, settling.rt and walking.rt.

ghost use Rattle.std.specs.Prelude.{◌≡◌, true, Some};
ghost use Rattle.marker_core.specs.Bodies.{IsPlace, holds};
ghost use Rattle.ephemerons.specs.Fixpoint.{Looks};
ghost use Rattle.ephemerons.specs.Tracers.{IsReady, Keeps, GoesOnward, stage_of};

use crate::tracing::{claim, trace_fields};
use mark_worklist::Marking;
use page_words::{Bodywords, MutatorSeat};
use pair_notes::Pairs;
use type_table::TypeTable;

/// What is lent to the fixpoint. New notes go to the first group, and `traced` counts the objects
/// that were traced.
#[derive(Drop)]
pub(crate) struct Tracer<'a, 't, B> {
    pub(crate) space: &'a B,
    pub(crate) types: &'t TypeTable,
    pub(crate) seat: &'a mut MutatorSeat,
    pub(crate) marking: &'a mut Marking,
    pub(crate) groups: &'a mut [Pairs],
    pub(crate) traced: u32,
}

impl<'a, 't, B: Bodywords> Tracer<'a, 't, B> {
    /// Claims an object and traces it, where it is marked and not yet traced, and tells whether it
    /// did.
    pub(crate) fn trace_grey(&mut self, place: u32) -> bool
        requires ready { IsReady B.heap self.old }
        requires place { IsPlace self.old.seat.now.bodies place }
        ensures keeps { Keeps B.heap self.old self.new }
        ensures looks { Looks self.old.types.now (Some place)
            (stage_of self.old) (stage_of self.new) result }
        ensures settled { holds self.new.seat.now.marked place ≡ true
            → holds self.new.seat.now.traced place ≡ true }
        ensures looked { holds self.old.seat.now.marked place ≡ true
            → GoesOnward self.old self.new }
    {
        self.seat.bodies_lie_apart();
        match claim(self.space, self.seat, place) {
            Some(ty) => {
                self.traced += 1;
                let own = &mut self.groups[0];
                trace_fields(
                    self.space,
                    self.types,
                    self.seat,
                    self.marking,
                    own,
                    place,
                    ty,
                );
                true
            }
            None => false,
        }
    }
}
