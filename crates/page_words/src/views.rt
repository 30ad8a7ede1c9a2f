// What a seat of the words' table knows, the rule of that table, and what its steps tell. All of it is
// for contracts alone.

ghost use Rattle.std.specs.Prelude.{ℕ};
ghost use Rattle.marker_core.specs.declared.states.MutatorView.{MutatorView};
ghost use Rattle.marker_core.specs.Idle.{idle_view};

use atomic_table::{Play, TableRule};
use ghost_values::GhostValue;
use std::marker::{Brand, Model, PhantomData};
use type_table::TypeTable;

/// What a seat knows. It is never made.
#[derive(Drop)]
pub struct Views {
    none: u8,
}

impl Model for Views {
    ghost use Rattle.std.specs.Prelude.{[], true};
    ghost use Rattle.marker_core.specs.Idle.{idle_view};
    ghost use Rattle.marker_core.specs.Views.{spent_view};
    ghost use Rattle.page_words.specs.Rule.{RuleView};

    ghost Value = { RuleView };

    ghost view = { λ s. record {
      owner = true;
      count = s.none;
      types = [];
      mutator = idle_view;
      marker = spent_view;
    } };
}

/// What the first view looks at.
#[derive(Drop)]
pub(crate) struct AboutNew<'a> {
    pub(crate) count: u32,
    pub(crate) types: &'a TypeTable,
}

/// The rule: words and views are a state of the step machine. The table is told the first view.
pub(crate) struct CoreRule;

impl TableRule<(), Views, GhostValue<Views>> for CoreRule {
    ghost use Rattle.page_words.specs.Rule.{IsCore, owner_view};

    ghost holds = { λ _. IsCore };

    ghost first = { λ key. owner_view key.value };
}

/// The mutator's view after a step, for the word that was found or, at a store, written.
pub(crate) trait Next {
    ghost next: { ℕ → MutatorView };
}

impl Next for Brand {
    ghost next = { λ _. idle_view };
}

/// A step that finds a word.
pub(crate) struct Finding<N> {
    next: PhantomData<N>,
}

impl<N: Next> Play<(), Views> for Finding<N> {
    ghost use Rattle.page_words.specs.Rule.{Finds};

    ghost then = { λ step before found after. Finds before.0 step.word N.next found after };
}

/// A step that only writes.
pub(crate) struct Writing<N> {
    next: PhantomData<N>,
}

impl<N: Next> Play<(), Views> for Writing<N> {
    ghost use Rattle.page_words.specs.Rule.{Turns};

    ghost then = { λ _ before found after. Turns before.0 (N.next found) after };
}
