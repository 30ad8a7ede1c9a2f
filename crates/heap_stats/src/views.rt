// What contracts see of a pass on the board, the rule of the board, and what each call tells.

use crate::totals::Totals;
use atomic_table::{Join, Split};
use crossbeam_utils::rule::{Outcome, Protocol};
use std::collections::LinkedList;

/// What a pass knows. It is never made.
///
/// | fields | what they tell |
/// |---|---|
/// | `writes` | whether it is the publisher's |
/// | `last`, `published` | of the publisher's: the totals published last, and all that were |
/// | `from`, `seen` | the ordinals of what it was lent with, and of what it has seen last |
/// | `read` | the totals that it has read |
/// | `taken` | what the pass that was taken back last had read |
pub struct BoardView {
    pub writes: bool,
    pub last: Totals,
    pub published: LinkedList<Totals>,
    pub from: u64,
    pub seen: u64,
    pub read: LinkedList<Totals>,
    pub taken: LinkedList<Totals>,
}

/// What is true of the board at every step.
pub(crate) struct OnBoard;

impl Protocol<Totals, BoardView> for OnBoard {
    ghost use Rattle.heap_stats.specs.Rule.{IsOnBoard, first_view};

    ghost holds = { IsOnBoard };

    ghost first = { first_view };
}

/// Totals are published.
pub(crate) struct Publishes;

impl Outcome<Totals, BoardView> for Publishes {
    ghost use Rattle.std.specs.Prelude.{◌≡◌};
    ghost use Rattle.heap_stats.specs.Rule.{publishing};

    ghost then = { λ before _ new after. after ≡ publishing before new };
}

/// Totals are read.
pub(crate) struct Reads;

impl Outcome<Totals, BoardView> for Reads {
    ghost use Rattle.heap_stats.specs.Rule.{IsReading};

    ghost then = { λ before found _ after. IsReading before found after };
}

/// The publisher looks at the board, and learns what the rule says of the pass taken back last.
pub(crate) struct Looks;

impl Outcome<Totals, BoardView> for Looks {
    ghost use Rattle.heap_stats.specs.Rule.{IsLooking};

    ghost then = { λ before _ _ after. IsLooking before after };
}

/// A pass is lent.
pub(crate) struct Lends;

impl Split<BoardView> for Lends {
    ghost use Rattle.heap_stats.specs.Rule.{lent};

    ghost left = { λ v. v };

    ghost right = { lent };
}

/// A pass gives all that it knows to a new one.
pub(crate) struct MovesOut;

impl Split<BoardView> for MovesOut {
    ghost use Rattle.heap_stats.specs.Rule.{blank};

    ghost left = { λ _. blank };

    ghost right = { λ v. v };
}

/// A pass goes back to the publisher.
pub(crate) struct TakesBack;

impl Join<BoardView> for TakesBack {
    ghost use Rattle.heap_stats.specs.Rule.{taking, blank};

    ghost both = { taking };

    ghost spent = { blank };
}
