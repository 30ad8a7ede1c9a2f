// The single accesses to the lock's table, each of which is one step for all threads.

ghost use Rattle.std.specs.Prelude.{◌≡◌, ◌≢◌, [], ◌∷◌, true, false, None, Some, Contains};
ghost use Rattle.region_lock.specs.Plays.{IsDrawn, HasTurn, IsCounted, IsRaised, IsWaiting};
ghost use Rattle.region_lock.specs.Plays.{MayRaise, MayServe, idle};
ghost use Rattle.region_lock.specs.Passes.{split_off, with_out};

use crate::chronicle::Chronicle;
use crate::lock::{COUNT, RegionLock, SERVING, TICKET};
use crate::passes::LockPass;
use crate::views::{Counts, Draws, Lends, LockView, Numbered, Raises, Serves, Waits};
use atomic_table::Seat;
use std::sync::Wait;
use std::thread;

impl<V: Chronicle> RegionLock<V> {
    /// Draws the next ticket.
    pub(crate) fn draw(&self, seat: &mut Seat<Option<V>, LockView<V::Entry>>) -> u64
        requires lock { seat.old.table_id ≡ self.now }
        requires lives { seat.old.me.0.spent ≡ false }
        requires idle { seat.old.me.0.waits ≡ false }
        requires free { seat.old.me.0.holds ≡ false }
        ensures same { seat.new.table_id ≡ seat.old.table_id }
        ensures ticket { IsDrawn seat.old.me result seat.new.me }
    {
        self.table.shared.fetch_add::<Draws>(seat, TICKET, 1)
    }

    /// Looks once whether the ticket is served, and holds the slot if it is.
    fn is_served(&self, seat: &mut Seat<Option<V>, LockView<V::Entry>>, ticket: u64) -> bool
        requires lock { seat.old.table_id ≡ self.now }
        requires waits { IsWaiting seat.old.me ticket }
        ensures same { seat.new.table_id ≡ seat.old.table_id }
        ensures yes { result ≡ true → HasTurn V.entries V.number seat.old.me seat.new.me }
        ensures no { result ≡ false → seat.new.me ≡ seat.old.me }
    {
        self.table.shared.load::<Waits>(seat, SERVING) == ticket
    }

    /// Waits until the ticket is served, and holds the slot.
    pub(crate) fn wait<R: Wait>(
        &self,
        rt: &R,
        seat: &mut Seat<Option<V>, LockView<V::Entry>>,
        ticket: u64,
    )
        requires lock { seat.old.table_id ≡ self.now }
        requires waits { IsWaiting seat.old.me ticket }
        ensures same { seat.new.table_id ≡ seat.old.table_id }
        ensures turn { HasTurn V.entries V.number seat.old.me seat.new.me }
    {
        for _ in rt.forever() {
            if self.is_served(seat, ticket) {
                return;
            }
            thread::yield_now();
        }
        unreachable!()
    }

    /// Takes the value out of the slot, which the pass holds.
    pub(crate) fn move_out(&self, seat: &mut Seat<Option<V>, LockView<V::Entry>>) -> V
        requires lock { seat.old.table_id ≡ self.now }
        requires held { (x : V) × (seat.old.me.1 ≡ (0, Some x) ∷ []) }
        ensures same { seat.new.table_id ≡ seat.old.table_id }
        ensures value { seat.old.me.1 ≡ (0, Some result) ∷ [] }
        ensures left { seat.new.me ≡ (seat.old.me.0, (0, None) ∷ []) }
    {
        match self.table.shared.exchange(seat, 0, None) {
            Some(value) => value,
            None => unreachable!(),
        }
    }

    /// Puts the value back into the slot, which the pass still holds.
    pub(crate) fn put(&self, seat: &mut Seat<Option<V>, LockView<V::Entry>>, value: V)
        requires lock { seat.old.table_id ≡ self.now }
        requires empty { seat.old.me.1 ≡ (0, None) ∷ [] }
        ensures same { seat.new.table_id ≡ seat.old.table_id }
        ensures full { seat.new.me ≡ (seat.old.me.0, (0, Some value) ∷ []) }
    {
        let _ = self.table.shared.exchange(seat, 0, Some(value));
    }

    /// Tells by the count word how many entries the value has, which is back in the slot. These are
    /// from then on what others find.
    pub(crate) fn raise(&self, seat: &mut Seat<Option<V>, LockView<V::Entry>>, count: u64)
        requires lock { seat.old.table_id ≡ self.now }
        requires may { MayRaise V.entries V.number seat.old.me count }
        ensures same { seat.new.table_id ≡ seat.old.table_id }
        ensures raised { IsRaised V.entries seat.old.me seat.new.me }
    {
        self.table.shared.store::<Raises>(seat, COUNT, count);
    }

    /// Serves the next ticket, and lets go of the slot.
    pub(crate) fn serve(&self, seat: &mut Seat<Option<V>, LockView<V::Entry>>, next: u64)
        requires lock { seat.old.table_id ≡ self.now }
        requires may { MayServe V.entries seat.old.me next }
        ensures same { seat.new.table_id ≡ seat.old.table_id }
        ensures served { seat.new.me ≡ (idle seat.old.me.0, []) }
    {
        self.table.shared.store::<Serves>(seat, SERVING, next);
    }

    /// Looks at the count word, and learns what the rule says of the pass.
    pub(crate) fn look(&self, seat: &mut Seat<Option<V>, LockView<V::Entry>>) -> u64
        requires lock { seat.old.table_id ≡ self.now }
        ensures same { seat.new.table_id ≡ seat.old.table_id }
        ensures counted { IsCounted V.number seat.old.me result seat.new.me }
    {
        self.table.shared.load::<Counts>(seat, COUNT)
    }

    /// Splits a pass off the first one, with the number that `N` picks for contracts.
    pub(crate) fn split_at<N: Numbered>(&self, pass: &mut LockPass<V>, number: u32) -> LockPass<V>
        requires lock { pass.old.lock ≡ self.now }
        requires first { pass.old.number ≡ 0 }
        requires above { number ≢ 0 }
        requires new { Contains pass.old.out number → ⊥ }
        requires picked { N.number ≡ number }
        ensures pass { pass.new ≡ with_out pass.old number }
        ensures other { result ≡ split_off pass.old number }
    {
        let _pass = &pass.seat;
        let seat = self.table.shared.split_seat::<Lends<N>>(&mut pass.seat);
        LockPass { seat }
    }
}
