// Text that is held back, so that it goes to a sink in large pieces.

ghost use Rattle.std.specs.Prelude.{◌≡◌, ◌≤◌, ◌++◌, IfOk, OnOk};
ghost use Rattle.gc_graph.specs.Report.{line_bytes};
ghost use Rattle.text_devices.specs.Causes.{FailsByFault};
ghost use Rattle.text_devices.specs.Devices.{Writes};
ghost use Rattle.report_text.specs.Pieces.{no_pieces, with_held_back, TookMore};

use super::line_text::add_whole_line;
use super::text::PieceText;
use gc_graph::{Line, NoMemory};
use std::alloc::Global;
use std::marker::Model;
use text_devices::{Failed, PIECE, Sink};

// A line with its end has fewer bytes.
const LONGEST: usize = 256;

/// Text on its way to a sink. Its memory is taken once, and after a failed write it goes on with
/// the first byte that the sink didn't take.
#[derive(Drop)]
pub struct Pieces {
    text: PieceText,
    sent: usize,
}

impl Model for Pieces {
    ghost use Rattle.std.specs.Prelude.{◌≤◌, ◌-◌, drop, length};
    ghost use Rattle.report_text.specs.Pieces.{PiecesState};

    ghost Value = { PiecesState };

    ghost view = { λ s. record {
      held = drop s.sent s.text;
      room = 65536 - length s.text;
    } };

    ghost invariant = { λ s. s.sent ≤ length s.text };
}

impl Pieces {
    /// Room for one piece.
    pub fn new(alloc: Global) -> Result<Pieces, NoMemory>
        ensures { IfOk result (λ pieces. pieces ≡ no_pieces) }
    {
        match PieceText::new(alloc) {
            Ok(text) => Ok(Pieces { text, sent: 0 }),
            Err(_) => Err(NoMemory),
        }
    }

    /// Hands down all that is held. After a failure the rest is still held.
    #[inline(never)]
    #[tactic(auto, using(crate::proofs::PieceByPiece::none_taken))]
    pub fn hand_down<K: Sink>(&mut self, sink: &mut K) -> Result<(), Failed>
        ensures told { with_held_back (K.written sink.new) self.new
            ≡ with_held_back (K.written sink.old) self.old }
        ensures empty { OnOk result (self.new ≡ no_pieces) }
        ensures taken { TookMore (K.written sink.old) (K.written sink.new) }
        ensures cause { FailsByFault (K.faults sink.old) (K.faults sink.new) result }
    {
        while self.sent < self.text.as_slice().len() {
            match sink.write(&self.text.as_slice()[self.sent..]) {
                Ok(count) => self.sent += count,
                Err(failed) => return Err(failed),
            }
        }
        self.text.clear();
        self.sent = 0;
        Ok(())
    }

    /// Hands down what is held where another line may have no room.
    #[inline(always)]
    #[tactic(auto, using(crate::proofs::PieceByPiece::none_taken))]
    fn make_room<K: Sink>(&mut self, sink: &mut K) -> Result<(), Failed>
        ensures told { with_held_back (K.written sink.new) self.new
            ≡ with_held_back (K.written sink.old) self.old }
        ensures room { OnOk result (256 ≤ self.new.room) }
        ensures taken { TookMore (K.written sink.old) (K.written sink.new) }
        ensures cause { FailsByFault (K.faults sink.old) (K.faults sink.new) result }
    {
        if self.text.as_slice().len() <= PIECE - LONGEST {
            return Ok(());
        }
        self.hand_down(sink)
    }

    #[inline(always)]
    fn keep(&mut self, line: &Line)
        requires { 256 ≤ self.old.room }
        ensures { self.new.held ≡ self.old.held ++ line_bytes line.now }
    {
        add_whole_line(&mut self.text, line);
    }

    /// Puts a line with its end after the text that is held back for the sink.
    #[inline(always)]
    pub fn print<K: Sink>(&mut self, line: &Line, sink: &mut K) -> Result<(), Failed>
        ensures bytes { Writes (with_held_back (K.written sink.old) self.old)
            (with_held_back (K.written sink.new) self.new) (line_bytes line.now) result }
        ensures taken { TookMore (K.written sink.old) (K.written sink.new) }
        ensures cause { FailsByFault (K.faults sink.old) (K.faults sink.new) result }
    {
        match self.make_room(sink) {
            Ok(()) => {}
            Err(failed) => return Err(failed),
        }
        self.keep(line);
        Ok(())
    }
}
