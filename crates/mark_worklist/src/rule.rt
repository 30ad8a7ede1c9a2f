// The rule of one list: what was put on it was taken from it or is left.

use crossbeam_deque::protocol::{Join, Lesson, Outcome, Protocol, Split};
use std::collections::LinkedList;

/// What one end of a list has put on it and taken from it, what it brought to it from others and moved
/// from it to others, and its parts of the right to know the whole. No value of it is made: contracts
/// alone see it.
pub struct Hand {
    pub parts: u64,
    pub put: LinkedList<u32>,
    pub taken: LinkedList<u32>,
    pub brought: LinkedList<u32>,
    pub moved: LinkedList<u32>,
}

pub(crate) struct Fair;

impl Protocol<u32, Hand> for Fair {
    ghost use Rattle.std.specs.Prelude.{[]};
    ghost use Rattle.mark_worklist.specs.Hands.{hand, all_parts, IsBalanced};

    ghost holds = { IsBalanced };

    ghost first = { hand all_parts [] [] };

    ghost guest = { hand 0 [] [] };
}

/// One part goes to a new end, and all that was put and taken stays.
pub(crate) struct Cut;

impl Split<Hand> for Cut {
    ghost use Rattle.std.specs.Prelude.{[]};
    ghost use Rattle.mark_worklist.specs.Hands.{hand, one_part_from};

    ghost left = { one_part_from };

    ghost right = { λ v. hand 1 [] [] };
}

impl Join<Hand> for Cut {
    ghost use Rattle.std.specs.Prelude.{[]};
    ghost use Rattle.mark_worklist.specs.Hands.{hand, hands_joined};

    ghost both = { hands_joined };

    ghost spent = { hand 0 [] [] };
}

/// A push.
pub(crate) struct Puts;

impl Outcome<u32, Hand> for Puts {
    ghost use Rattle.std.specs.Prelude.{◌≡◌};
    ghost use Rattle.mark_worklist.specs.Hands.{with_put};

    ghost then = { λ v xs w. w ≡ with_put v xs };
}

/// A pop: the end that has all parts knows then what is left.
pub(crate) struct Pops;

impl Outcome<u32, Hand> for Pops {
    ghost use Rattle.mark_worklist.specs.Hands.{TookWhole, WasEmpty};

    ghost then = { TookWhole };

    ghost empty = { WasEmpty };
}

/// A steal.
pub(crate) struct Takes;

impl Outcome<u32, Hand> for Takes {
    ghost use Rattle.std.specs.Prelude.{◌≡◌};
    ghost use Rattle.mark_worklist.specs.Hands.{with_taken, WasEmpty};

    ghost then = { λ v xs w. w ≡ with_taken v xs };

    ghost empty = { WasEmpty };
}

/// A move of items from this list to another.
pub(crate) struct Moves;

impl Outcome<u32, Hand> for Moves {
    ghost use Rattle.std.specs.Prelude.{◌≡◌};
    ghost use Rattle.mark_worklist.specs.Hands.{with_moved};

    ghost then = { λ v xs w. w ≡ with_moved v xs };
}

/// A move of items from another list to this one.
pub(crate) struct Brings;

impl Outcome<u32, Hand> for Brings {
    ghost use Rattle.std.specs.Prelude.{◌≡◌};
    ghost use Rattle.mark_worklist.specs.Hands.{with_brought};

    ghost then = { λ v xs w. w ≡ with_brought v xs };
}

/// What the end that has all parts knows of the items.
pub(crate) struct Total;

impl Lesson<u32, Hand> for Total {
    ghost use Rattle.mark_worklist.specs.Hands.{IsLeft};

    ghost fact = { IsLeft };
}
