// What is read comes into a root.

ghost use Rattle.std.specs.Prelude.{◌≡◌, ◌<◌, IfOk, IfSome, None, false, true, length};
ghost use Rattle.std.specs.Prelude.{slice_index_or};
ghost use Rattle.gc_graph.specs.Lawful.{IsAllowed};
ghost use Rattle.gc_graph.specs.Commands.{SpeaksOf};
ghost use Rattle.oilpan.specs.Handles.{HasRoom};
ghost use Rattle.oilpan.specs.Asked.{IsAsked, ReadsInto, line_of_roots};

use crate::asking::{ask, field_error};
use crate::errors::FieldError;
use crate::handles::Root;
use crate::heap::Oilpan;
use gc_graph::{Command, Line};
use heap_engine::Gate;
use std::sync::Wait;
use std::thread::Threads;

impl<'a, G: Gate + Send + Sync + 'static> Oilpan<'a, G> {
    /// Does a command that reads a field into a slot that isn't given out, and gives the slot out where a
    /// node was read.
    #[inline(always)]
    pub(crate) fn read_into<R: Threads + Wait + Copy + Send + 'static>(
        &mut self,
        rt: &R,
        command: &Command,
        slot: u32,
    ) -> Result<Option<Root>, FieldError>
        requires room { HasRoom self.old.heap.core.state 1 }
        requires allowed { IsAllowed (length self.old.heap.core.setup.types) command.now }
        requires into { ReadsInto slot command.now }
        requires object { ¬ (SpeaksOf self.old.heap.core.state command.now None) }
        requires slot { slot < 256 }
        requires free { slice_index_or self.old.taken slot true ≡ false }
        ensures asked { IsAsked self.old.heap.core.setup self.old.heap.core.state
            self.new.heap.core.state command.now self.new.heap.core.piece
            self.new.heap.core.lines (line_of_roots result) }
        ensures slots { IfOk result (λ o. IfSome o (λ r. r.slot ≡ slot)) }
        ensures setup { self.new.heap.core.setup ≡ self.old.heap.core.setup }
        ensures watched { self.new.watched ≡ self.old.watched }
        ensures shared { self.new.shared ≡ self.old.shared }
    {
        self.taken[slot as usize] = true;
        match ask(&mut self.heap, rt, command) {
            Line::Node { k } => {
                self.likely = (slot as u8).wrapping_add(1);
                Ok(Some(Root { slot, node: k }))
            }
            Line::Null => {
                self.taken[slot as usize] = false;
                Ok(None)
            }
            line => {
                self.taken[slot as usize] = false;
                Err(field_error(line))
            }
        }
    }
}
