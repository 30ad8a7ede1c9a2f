// A report's lines, written one by one.

ghost use Rattle.gc_graph.specs.Report.{line_bytes};
ghost use Rattle.text_devices.specs.Causes.{FailsByFault};
ghost use Rattle.text_devices.specs.Devices.{Writes};

use super::line_text::add_whole_line;
use super::text::LineText;
use gc_graph::Line;
use text_devices::{Failed, Sink};

/// Writes a line with its end. After a failure a beginning of it was written.
pub fn print_line<K: Sink>(line: &Line, sink: &mut K) -> Result<(), Failed>
    ensures bytes { Writes (K.written sink.old) (K.written sink.new) (line_bytes line.now) result }
    ensures cause { FailsByFault (K.faults sink.old) (K.faults sink.new) result }
{
    let mut text = LineText::new();
    add_whole_line(&mut text, line);
    write_all(text.as_slice(), sink)
}

#[tactic(auto, using(crate::proofs::PieceByPiece::took_none, crate::proofs::PieceByPiece::took_all, crate::proofs::PieceByPiece::took_front))]
fn write_all<K: Sink>(text: &[u8], sink: &mut K) -> Result<(), Failed>
    ensures bytes { Writes (K.written sink.old) (K.written sink.new) text.now result }
    ensures cause { FailsByFault (K.faults sink.old) (K.faults sink.new) result }
{
    let mut rest = text;
    while !rest.is_empty() {
        match sink.write(rest) {
            Ok(count) => rest = &rest[count..],
            Err(failed) => return Err(failed),
        }
    }
    Ok(())
}
