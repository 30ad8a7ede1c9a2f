// The states since threads went last. All of it is for contracts alone.

ghost use Rattle.std.specs.Prelude.{◌≡◌, []};
ghost use Rattle.heap_cycle.specs.Parts.{state_of};
ghost use Rattle.heap_engine.specs.Going.{since_after};

use gc_graph::Command;
use ghost_values::GhostValue;
use heap_cycle::Parts;
use std::marker::Model;

/// Lists of states of the graph. None is ever made.
#[derive(Drop)]
pub struct StateLists {
    none: u8,
}

impl Model for StateLists {
    ghost use Rattle.std.specs.Prelude.{List, []};
    ghost use Rattle.gc_graph.specs.State.{State};

    ghost Value = { List State };

    ghost view = { λ s. [] };
}

/// No states.
pub fn no_states() -> GhostValue<StateLists>
    ensures { result.value ≡ [] }
{
    GhostValue::chosen(&0u8)
}

/// What a command looks at.
#[derive(Drop)]
struct AboutCommand<'a> {
    since: &'a GhostValue<StateLists>,
    parts: &'a Parts,
    command: &'a Command,
}

/// The states since threads went last, up to the one before this command.
pub fn after(
    since: &GhostValue<StateLists>,
    parts: &Parts,
    command: &Command,
) -> GhostValue<StateLists>
    ensures { result.value ≡ since_after command.now (state_of parts.now) since.now.value }
{
    GhostValue::chosen(&AboutCommand {
        since,
        parts,
        command,
    })
}
