// What contracts see of a seat of the lock's table, the rule of that table, and what each step tells.

ghost use Rattle.std.specs.Prelude.{ℕ};

use crate::chronicle::Chronicle;
use atomic_table::{Join, Play, Split, TableRule};
use std::collections::LinkedList;
use std::marker::{Brand, PhantomData};

/// What a seat knows. It is never made.
///
/// | fields | what they tell |
/// |---|---|
/// | `spent` | whether the seat was given back |
/// | `number`, `seen`, `out` | its number, the entries that it has seen, the numbers that are out |
/// | `waits`, `ticket` | whether it has a ticket, and which |
/// | `holds`, `found` | whether it holds the slot, and the entries that others find of the value |
/// | `own`, `others` | what each of the two had seen at the last join |
/// | `was_out`, `back` | what was out before that join, and the number that came back |
pub struct LockView<E> {
    pub spent: bool,
    pub number: u32,
    pub seen: LinkedList<E>,
    pub out: LinkedList<u32>,
    pub waits: bool,
    pub ticket: u64,
    pub holds: bool,
    pub found: LinkedList<E>,
    pub own: LinkedList<E>,
    pub others: LinkedList<E>,
    pub was_out: LinkedList<u32>,
    pub back: u32,
}

/// What is true of the table at every step.
pub(crate) struct InTurn;

impl<V: Chronicle> TableRule<Option<V>, LockView<V::Entry>, ()> for InTurn {
    ghost use Rattle.region_lock.specs.Rule.{IsInTurn, first_view};

    ghost holds = { λ _. IsInTurn V.entries V.number };

    ghost first = { λ _. first_view };
}

/// A ticket is drawn.
pub(crate) struct Draws;

impl<V: Chronicle> Play<Option<V>, LockView<V::Entry>> for Draws {
    ghost use Rattle.region_lock.specs.Plays.{IsDrawn};

    ghost then = { λ _ before found after. IsDrawn before found after };
}

/// A look at the serving word, which takes the slot where the own ticket is served.
pub(crate) struct Waits;

impl<V: Chronicle> Play<Option<V>, LockView<V::Entry>> for Waits {
    ghost use Rattle.region_lock.specs.Plays.{IsWaited};

    ghost then = { λ _ before found after. IsWaited V.entries V.number before found after };
}

/// A look at the count word.
pub(crate) struct Counts;

impl<V: Chronicle> Play<Option<V>, LockView<V::Entry>> for Counts {
    ghost use Rattle.region_lock.specs.Plays.{IsCounted};

    ghost then = { λ _ before found after. IsCounted V.number before found after };
}

/// The count word is raised to the entries of the value.
pub(crate) struct Raises;

impl<V: Chronicle> Play<Option<V>, LockView<V::Entry>> for Raises {
    ghost use Rattle.region_lock.specs.Plays.{IsRaised};

    ghost then = { λ _ before found after. IsRaised V.entries before after };
}

/// The next ticket is served, and the slot goes back.
pub(crate) struct Serves;

impl<V: Chronicle> Play<Option<V>, LockView<V::Entry>> for Serves {
    ghost use Rattle.region_lock.specs.Plays.{IsServed};

    ghost then = { λ _ before found after. IsServed before after };
}

/// The number of a pass that is split off.
pub(crate) trait Numbered {
    ghost number: { ℕ };
}

impl Numbered for Brand {
    ghost number = { 0 };
}

/// A seat is split off the first one.
pub(crate) struct Lends<N> {
    number: PhantomData<N>,
}

impl<E, N: Numbered> Split<LockView<E>> for Lends<N> {
    ghost use Rattle.region_lock.specs.Plays.{lender, lent};

    ghost left = { λ v. lender v N.number };

    ghost right = { λ v. lent v N.number };
}

/// A seat goes back to the first one.
pub(crate) struct TakesBack;

impl<E> Join<LockView<E>> for TakesBack {
    ghost use Rattle.region_lock.specs.Plays.{taker, gone};

    ghost both = { taker };

    ghost spent = { gone };
}
