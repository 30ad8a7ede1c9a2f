// The board: four words and a version, and the calls on them.

ghost use Rattle.std.specs.Prelude.{◌≡◌, ◌<◌, ◌≤◌, true, false, IfOk, All, Contains};
ghost use Rattle.heap_stats.specs.Boards.{first_publisher, with_published, with_read, lent_from};
ghost use Rattle.heap_stats.specs.Rule.{IsLooking, taking};

use crate::passes::{BoardPass, Publisher};
use crate::totals::Totals;
use crate::views::{BoardView, Lends, Looks, MovesOut, OnBoard, Publishes, Reads, TakesBack};
use crossbeam_utils::atomic::seq_cell::{Pass, RuledSeqCell};
use gc_graph::NoMemory;
use std::alloc::Global;
use std::marker::Model;
use std::sync::Wait;

/// The totals that were published last. Threads share the board, and each reads it with a pass of its
/// own.
#[derive(Drop)]
pub struct Board {
    cell: RuledSeqCell<Totals, BoardView, OnBoard, 4>,
}

impl Model for Board {
    ghost use Rattle.atomic_table.specs.Seated.{TableId};

    ghost Value = { TableId };

    ghost view = { λ b. b.cell.table.shared.table_id };
}

impl Board {
    /// A board with four zeros, and its publisher. Want of memory is free, and only this call may meet
    /// it.
    pub fn new(alloc: Global) -> Result<(Board, Publisher), NoMemory>
        ensures { IfOk result (λ made. made.1 ≡ first_publisher made.0) }
    {
        let zeros = Totals {
            ordinal: 0,
            objects: 0,
            used: 0,
            finalised: 0,
        };
        let (cell, pass) = RuledSeqCell::ruled(alloc, zeros)?;
        Ok((Board { cell }, Publisher { pass }))
    }

    /// Publishes the totals, all four at once. Others may read meanwhile.
    pub fn publish<R: Wait>(&self, rt: &R, publisher: &mut Publisher, totals: Totals)
        requires board { publisher.old.board ≡ self.now }
        requires greater { publisher.old.last.ordinal < totals.ordinal }
        ensures { publisher.new ≡ with_published publisher.old totals }
    {
        let _publisher = &publisher.pass;
        // Its handle has a type of its own, so that the cell's lock is compiled for this call alone, and
        // stands in line: 61 instructions in place of 90.
        self.cell
            .swap_as::<Publishes, &R>(&rt, &mut publisher.pass, totals);
    }

    /// The totals on the board. Any thread that has a pass may call it, beside others.
    pub fn read<R: Wait>(&self, rt: &R, pass: &mut BoardPass) -> Totals
        requires board { pass.old.board ≡ self.now }
        ensures later { pass.old.seen ≤ result.ordinal }
        ensures pass { pass.new ≡ with_read pass.old result }
    {
        let _pass = &pass.pass;
        self.cell.load_as::<Reads, R>(rt, &mut pass.pass)
    }

    /// A pass for another thread, which has seen what was published last.
    pub fn lend(&self, publisher: &mut Publisher) -> BoardPass
        requires board { publisher.old.board ≡ self.now }
        ensures pass { result ≡ lent_from publisher.old }
        ensures publisher { publisher.new ≡ publisher.old }
    {
        let _publisher = &publisher.pass;
        let pass = self.cell.split_pass::<Lends>(&mut publisher.pass);
        BoardPass { pass }
    }

    /// Takes a pass back: all that it has read was published.
    pub fn take_back<R: Wait>(&self, rt: &R, publisher: &mut Publisher, pass: BoardPass)
        requires board { publisher.old.board ≡ self.now }
        requires same { pass.board ≡ self.now }
        ensures read { All (Contains publisher.old.published) pass.read }
        ensures publisher { publisher.new ≡ publisher.old }
    {
        let _publisher = &publisher.pass;
        let BoardPass { pass: spent } = pass;
        self.join(&mut publisher.pass, spent);
        // A join tells nothing of the rule, and a look does.
        self.look(rt, &mut publisher.pass);
    }

    /// Joins a reader's pass to the publisher's, which then knows what the other one has read.
    fn join(&self, pass: &mut Pass<Totals, BoardView>, mut spent: Pass<Totals, BoardView>)
        requires board { pass.old.table_id ≡ self.now }
        requires same { spent.table_id ≡ self.now }
        requires reads { spent.me.0.client.writes ≡ false }
        ensures same { pass.new.table_id ≡ pass.old.table_id }
        ensures joined { pass.new.me.0.client ≡ taking pass.old.me.0.client spent.me.0.client }
    {
        // A join asks that its pass holds no slot. A load doesn't tell that, and a split does.
        let other = self.cell.split_pass::<MovesOut>(&mut spent);
        self.cell.join_pass::<TakesBack>(pass, other);
    }

    /// Looks at the board, and learns what the rule says of the pass taken back last.
    fn look<R: Wait>(&self, rt: &R, pass: &mut Pass<Totals, BoardView>)
        requires board { pass.old.table_id ≡ self.now }
        requires writes { pass.old.me.0.client.writes ≡ true }
        ensures same { pass.new.table_id ≡ pass.old.table_id }
        ensures looked { IsLooking pass.old.me.0.client pass.new.me.0.client }
    {
        self.cell.load_as::<Looks, R>(rt, pass);
    }
}
