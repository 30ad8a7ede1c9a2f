// The lock: three words and a slot, and the calls on them.

ghost use Rattle.std.specs.Prelude.{◌≡◌, ◌≢◌, [], IfOk, None, Contains};
ghost use Rattle.region_lock.specs.Passes.{first_state, IsTaken, MayBeGiven, given};
ghost use Rattle.region_lock.specs.Passes.{split_off, with_out, joined_with};
ghost use Rattle.region_lock.specs.Rule.{BeginsOther};

use crate::chronicle::Chronicle;
use crate::passes::{Held, LockPass};
use crate::views::{InTurn, LockView, TakesBack};
use atomic_table::Table;
use gc_graph::NoMemory;
use std::alloc::Global;
use std::marker::{Brand, Model};
use std::sync::Wait;

/// The next ticket that is drawn.
pub(crate) const TICKET: usize = 0;

/// The ticket that is served.
pub(crate) const SERVING: usize = 1;

/// How many entries the value had when it was last given back.
pub(crate) const COUNT: usize = 2;

/// A value that one pass at a time takes. Threads share the lock, and each calls it with a pass of its
/// own.
#[derive(Drop)]
pub struct RegionLock<V: Chronicle> {
    pub(crate) table: Table<Option<V>, LockView<V::Entry>, (), InTurn, Global>,
}

impl<V: Chronicle> Model for RegionLock<V> {
    ghost use Rattle.std.specs.Prelude.{◌≡◌};
    ghost use Rattle.atomic_table.specs.Seated.{TableId};

    ghost Value = { TableId };

    ghost view = { λ l. l.table.shared.table_id };

    ghost invariant = { λ l. (l.table.shared.table_id.words ≡ 3) × (l.table.shared.table_id.slots ≡ 1) };
}

impl<V: Chronicle> RegionLock<V> {
    /// The value under a lock, and the first pass. Want of memory is free, and only this call may
    /// meet it.
    pub fn new(alloc: Global, value: V) -> Result<(RegionLock<V>, LockPass<V>), NoMemory>
        requires { V.entries value ≡ [] }
        ensures { IfOk result (λ made. made.1 ≡ first_state made.0) }
    {
        let mut slots = Vec::with_capacity(alloc, 1)?;
        slots.push_reserved(Some(value));
        match Table::new(alloc, &[0, 0, 0], slots, &()) {
            Ok((table, seat)) => Ok((RegionLock { table }, LockPass { seat })),
            Err(refused) => {
                drop(refused);
                Err(NoMemory)
            }
        }
    }

    /// Waits until those that drew a ticket before have given the value back, and takes it. Where one
    /// of them keeps it, the wait has no end. Any thread that has a pass may call it, beside others.
    pub fn take<R: Wait>(&self, rt: &R, pass: &mut LockPass<V>) -> Held<V>
        requires lock { pass.old.lock ≡ self.now }
        requires free { pass.old.turn ≡ None }
        ensures { IsTaken V.entries V.number pass.old result pass.new }
    {
        let ticket = self.draw(&mut pass.seat);
        self.wait(rt, &mut pass.seat, ticket);
        let count = self.look(&mut pass.seat);
        let value = self.move_out(&mut pass.seat);
        Held {
            value,
            ticket,
            count,
        }
    }

    /// Gives the value back, which the pass has then seen. It does not wait.
    pub fn give(&self, held: Held<V>, pass: &mut LockPass<V>)
        requires lock { pass.old.lock ≡ self.now }
        requires given { MayBeGiven V.entries V.number pass.old held }
        ensures { pass.new ≡ given V.entries V.number pass.old held }
    {
        let Held {
            value,
            ticket,
            count,
        } = held;
        // In this order: the count is of the value that is back, and whoever is served finds both.
        self.put(&mut pass.seat, value);
        self.raise(&mut pass.seat, count);
        self.serve(&mut pass.seat, ticket.wrapping_add(1));
    }

    /// A pass with this number, for another thread. Others may take and give meanwhile, and the first
    /// pass may have a turn.
    pub fn split_pass(&self, pass: &mut LockPass<V>, number: u32) -> LockPass<V>
        requires lock { pass.old.lock ≡ self.now }
        requires first { pass.old.number ≡ 0 }
        requires above { number ≢ 0 }
        requires new { Contains pass.old.out number → ⊥ }
        ensures pass { pass.new ≡ with_out pass.old number }
        ensures other { result ≡ split_off pass.old number }
    {
        self.split_at::<Brand>(pass, number)
    }

    /// Takes a pass back, whose number may then be split off again. Others may take and give meanwhile,
    /// and the first pass may have a turn.
    pub fn join_pass(&self, pass: &mut LockPass<V>, other: LockPass<V>)
        requires lock { pass.old.lock ≡ self.now }
        requires same { other.lock ≡ self.now }
        requires first { pass.old.number ≡ 0 }
        requires later { other.number ≢ 0 }
        requires free { other.turn ≡ None }
        ensures pass { pass.new ≡ joined_with pass.old other }
        ensures seen { BeginsOther V.number other.number
            pass.old.seen other.seen pass.old.out }
    {
        let LockPass { seat } = other;
        self.table
            .shared
            .join_seat::<TakesBack>(&mut pass.seat, seat);
        // A join tells nothing of the rule, and a look does.
        self.look(&mut pass.seat);
    }
}
