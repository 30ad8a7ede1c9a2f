// The words of a space, to whoever reads and writes fields, marks or traces.

use crate::space::Space;
use gap_bounds::{Bodywords, MutatorSeat, Reason};

impl Bodywords for Space {
    ghost use Rattle.page_space.specs.Space.{heap_of};

    ghost heap = { heap_of };

    fn count(&self) -> u32 {
        self.words.count()
    }

    fn load<W: Reason>(&self, seat: &mut MutatorSeat, a: u32) -> u64 {
        self.words.load::<W>(seat, a)
    }

    fn fill(&self, seat: &mut MutatorSeat, a: u32, w: u64) {
        self.words.fill(seat, a, w);
    }

    fn store(&self, seat: &mut MutatorSeat, a: u32, w: u64) {
        self.words.store(seat, a, w);
    }

    fn publish(&self, seat: &mut MutatorSeat, a: u32) {
        self.words.publish(seat, a);
    }

    fn retract(&self, seat: &mut MutatorSeat, a: u32) {
        self.words.retract(seat, a);
    }

    fn mark(&self, seat: &mut MutatorSeat, a: u32) -> bool {
        self.words.mark(seat, a)
    }

    fn claim(&self, seat: &mut MutatorSeat, a: u32, header: u64) -> bool {
        self.words.claim(seat, a, header)
    }

    fn unmark(&self, seat: &mut MutatorSeat, a: u32) {
        self.words.unmark(seat, a);
    }

    fn set_stop(&self, seat: &mut MutatorSeat, on: bool) {
        self.words.set_stop(seat, on);
    }

    fn next_object(&self, seat: &mut MutatorSeat, from: u32) -> Option<u32> {
        self.words.next_object(seat, from)
    }
}
