// The kinds of a program's callbacks. All of it is for contracts alone.

ghost use Rattle.std.specs.Prelude.{◌≡◌};
ghost use Rattle.callback_table.specs.Table.{callback_kinds};

use callback_table::CallbackTable;
use ghost_values::GhostValue;
use std::marker::Model;

/// A list of kinds. It is never made.
#[derive(Drop)]
pub struct Kinds {
    none: u8,
}

impl Model for Kinds {
    ghost use Rattle.std.specs.Prelude.{List, []};
    ghost use Rattle.gc_graph.specs.declared.action.ActionKind.{ActionKind};

    ghost Value = { List ActionKind };

    ghost view = { λ kinds. [] };
}

/// The kinds of these callbacks.
pub fn of(callbacks: &CallbackTable) -> GhostValue<Kinds>
    ensures { result.value ≡ callback_kinds callbacks.now }
{
    GhostValue::chosen(callbacks)
}
