// What the steps of a marker's seat tell, and how a view is cut in two and made one. All of it is for
// contracts alone.

ghost use Rattle.std.specs.Prelude.{ℕ};
ghost use Rattle.marker_core.specs.declared.states.MarkerView.{MarkerView};
ghost use Rattle.marker_core.specs.Views.{fresh_view};

use crate::views::Views;
use atomic_table::{Join, Play, Split};
use std::marker::{Brand, PhantomData};

/// A marker's view after a step, for the word that was found.
pub(crate) trait NextMarker {
    ghost next: { ℕ → MarkerView };
}

impl NextMarker for Brand {
    ghost next = { λ _. fresh_view };
}

/// A marker's step that finds a word.
pub(crate) struct MarkerFinding<N> {
    next: PhantomData<N>,
}

impl<N: NextMarker> Play<(), Views> for MarkerFinding<N> {
    ghost use Rattle.page_words.specs.MarkerRule.{MarkerFinds};

    ghost then = { λ step before found after. MarkerFinds before.0 step.word N.next found after };
}

/// The mutator lends a seat.
pub(crate) struct Lending;

impl Split<Views> for Lending {
    ghost use Rattle.page_words.specs.MarkerRule.{lender_view, lent_view};

    ghost left = { lender_view };

    ghost right = { lent_view };
}

/// The mutator takes a seat back.
pub(crate) struct TakingBack;

impl Join<Views> for TakingBack {
    ghost use Rattle.page_words.specs.MarkerRule.{taker_view, given_view};

    ghost both = { taker_view };

    ghost spent = { given_view };
}

/// The mutator's look after it has taken a seat back.
pub(crate) struct LookingAgain;

impl Play<(), Views> for LookingAgain {
    ghost use Rattle.page_words.specs.MarkerRule.{LooksAgain};

    ghost then = { λ _ before found after. LooksAgain before.0 after };
}
