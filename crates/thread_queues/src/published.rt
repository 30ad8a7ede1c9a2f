// The totals that were published since threads went. All of it is for contracts alone.

ghost use Rattle.std.specs.Prelude.{◌≡◌, ◌++◌, ◌∷◌, []};

use ghost_values::GhostValue;
use heap_stats::Publisher;
use std::marker::Model;

/// Lists of totals. None is ever made.
#[derive(Drop)]
pub(crate) struct TotalsLists {
    none: u8,
}

impl Model for TotalsLists {
    ghost use Rattle.std.specs.Prelude.{List, []};
    ghost use Rattle.heap_stats.specs.declared.totals.Totals.{Totals};

    ghost Value = { List Totals };

    ghost view = { λ s. [] };
}

/// No totals.
pub(crate) fn none() -> GhostValue<TotalsLists>
    ensures { result.value ≡ [] }
{
    GhostValue::chosen(&0u8)
}

/// What a publication looks at.
#[derive(Drop)]
struct AboutPublication<'a> {
    since: &'a GhostValue<TotalsLists>,
    publisher: &'a Publisher,
}

/// These, and behind them what was published last.
pub(crate) fn with_last(
    since: &GhostValue<TotalsLists>,
    publisher: &Publisher,
) -> GhostValue<TotalsLists>
    ensures { result.value ≡ since.now.value ++ publisher.now.last ∷ [] }
{
    GhostValue::chosen(&AboutPublication { since, publisher })
}
