// With what a board's owner publishes, and with what threads read.

ghost use Rattle.std.specs.Prelude.{◌≡◌, ◌≤◌, List, [], ◌∷◌, ◌++◌, All};
ghost use Rattle.heap_stats.specs.declared.totals.Totals.{Totals};
ghost use Rattle.heap_stats.specs.Boards.{Rise, NeverFall};

use crate::totals::Totals;
use crate::views::BoardView;
use crossbeam_utils::atomic::seq_cell::Pass;
use std::marker::Model;

/// The right to publish, of which each board has one. Contracts see its board, the totals that it
/// published last, and all that it published.
#[derive(Drop)]
pub struct Publisher {
    pub(crate) pass: Pass<Totals, BoardView>,
}

impl Model for Publisher {
    ghost use Rattle.heap_stats.specs.Boards.{PublisherView};
    ghost use Rattle.heap_stats.specs.Rule.{publisher_view, IsPublisher};

    ghost Value = { PublisherView };

    ghost view = { λ p. publisher_view p.pass.table_id p.pass.me.0.client };

    ghost invariant = { λ p. IsPublisher p.pass.me.0.client };
}

impl Publisher {
    /// What was published rises, and ends with the totals published last. Whoever calls this has the
    /// law.
    pub fn totals_rise(&self)
        ensures rise { Rise self.now.published }
        ensures last { (before : List Totals)
            × (self.now.published ≡ before ++ self.now.last ∷ []) }
    {
        let _ = &self.pass;
    }
}

/// The right to read. A thread may hand it to another one, and no two use it at once. Contracts see its
/// board, the ordinal of the totals that it was lent with, the ordinal that it has seen last, and the
/// totals that it has read.
#[derive(Drop)]
pub struct BoardPass {
    pub(crate) pass: Pass<Totals, BoardView>,
}

impl Model for BoardPass {
    ghost use Rattle.heap_stats.specs.Boards.{ReaderView};
    ghost use Rattle.heap_stats.specs.Rule.{reader_view, IsReader};

    ghost Value = { ReaderView };

    ghost view = { λ p. reader_view p.pass.table_id p.pass.me.0.client };

    ghost invariant = { λ p. IsReader p.pass.me.0.client };
}

impl BoardPass {
    /// What was read is no older than what the pass was lent with, and stands in order. Whoever calls
    /// this has the law.
    pub fn reads_in_order(&self)
        ensures from { All (λ (t : Totals). self.now.from ≤ t.ordinal) self.now.read }
        ensures order { NeverFall self.now.read }
    {
        let _ = &self.pass;
    }
}
