// Passes of the lock, and the value that a turn holds.

ghost use Rattle.std.specs.Prelude.{◌≡◌, ◌+◌, ◌%◌, ◌^◌};

use crate::chronicle::Chronicle;
use crate::views::LockView;
use atomic_table::Seat;
use std::marker::Model;

/// The right to call the lock. A thread may hand it to another one, and no two use it at once.
/// Contracts see its lock, its number, the entries that it has seen, the numbers of the passes that
/// are out, and its turn. A pass that is let go of stays out.
#[derive(Drop)]
pub struct LockPass<V: Chronicle> {
    pub(crate) seat: Seat<Option<V>, LockView<V::Entry>>,
}

impl<V: Chronicle> Model for LockPass<V> {
    ghost use Rattle.region_lock.specs.Passes.{PassState, pass_state, IsPass};

    ghost Value = { PassState V.Entry };

    ghost view = { λ p. pass_state p.seat.table_id p.seat.me.0 };

    ghost invariant = { λ p. IsPass p.seat.me };
}

/// The value, for one turn. Where it is let go of and not given back, the value is gone, and no later
/// wait ends.
#[derive(Drop)]
pub struct Held<V> {
    pub value: V,
    pub(crate) ticket: u64,
    pub(crate) count: u64,
}

impl<V> Held<V> {
    /// Counts one entry that was put behind the others. `give` asks that each was counted.
    pub fn added(&mut self)
        ensures { self.new ≡ record self.old { count = (self.old.count + 1) % 2 ^ 64 } }
    {
        self.count = self.count.wrapping_add(1);
    }
}
