// What is left on lists that were taken in. All of it is for contracts alone.

ghost use Rattle.std.specs.Prelude.{◌≡◌, []};
ghost use Rattle.mark_worklist.specs.Left.{left_on, without_first};

use crate::lists::SharedList;
use ghost_values::GhostValue;
use std::marker::Model;

/// A list of addresses. It is never made.
#[derive(Drop)]
pub(crate) struct Addresses {
    none: u8,
}

impl Model for Addresses {
    ghost use Rattle.std.specs.Prelude.{ℕ, List, []};

    ghost Value = { List ℕ };

    ghost view = { λ addresses. [] };
}

/// What a pop looks at.
#[derive(Drop)]
struct AboutPop<'a> {
    a: u32,
    left: &'a GhostValue<Addresses>,
}

/// What was left, without this address.
pub(crate) fn without(a: u32, left: &GhostValue<Addresses>) -> GhostValue<Addresses>
    ensures { result.value ≡ without_first a left.now.value }
{
    GhostValue::chosen(&AboutPop { a, left })
}

/// What is left on joined lists.
pub(crate) fn left_on(list: &SharedList) -> GhostValue<Addresses>
    ensures { result.value ≡ left_on list.now }
{
    GhostValue::chosen(list)
}

/// No address is left.
pub(crate) fn none() -> GhostValue<Addresses>
    ensures { result.value ≡ [] }
{
    GhostValue::chosen(&0u8)
}
