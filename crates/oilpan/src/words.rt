// Plain words of objects.

ghost use Rattle.std.specs.Prelude.{◌≡◌, ◌+◌, ◌<◌, IfOk, IfErr};
ghost use Rattle.gc_graph.specs.declared.kind.Value.TheVariants.{Word};
ghost use Rattle.gc_graph.specs.Fields.{is_plain};
ghost use Rattle.gc_graph.specs.ClearingLaw.{first_held};
ghost use Rattle.gc_graph.specs.HandleLaw.{with_field};
ghost use Rattle.oilpan.specs.declared.handles.Root.{Root};
ghost use Rattle.oilpan.specs.declared.handles.SharedRoot.{SharedRoot};
ghost use Rattle.oilpan.specs.declared.handles.WeakRoot.{WeakRoot};
ghost use Rattle.oilpan.specs.Handles.{HasRoom, Holds, Shares, Watches};
ghost use Rattle.oilpan.specs.Fields.{IsFieldDone, IsFieldFault};

use crate::asking::{read_word, write};
use crate::errors::FieldError;
use crate::handles::Root;
use crate::heap::Oilpan;
use gc_graph::Command;
use heap_engine::Gate;
use std::sync::Wait;
use std::thread::Threads;

impl<'a, G: Gate + Send + Sync + 'static> Oilpan<'a, G> {
    /// The holder's plain word is this number afterwards.
    #[inline(always)]
    pub fn put_word<R: Threads + Wait + Copy + Send + 'static>(
        &mut self,
        rt: &R,
        holder: &Root,
        field: u32,
        word: u64,
    ) -> Result<(), FieldError>
        requires room { HasRoom self.old.heap.core.state 1 }
        requires field { field < 67108864 }
        requires holder { Holds self.old.heap.core.state holder.now }
        ensures setup { self.new.heap.core.setup ≡ self.old.heap.core.setup }
        ensures ordinal { self.new.heap.core.state.ordinal ≡ self.old.heap.core.state.ordinal + 1 }
        ensures holds { IfOk result (λ _. IsFieldDone is_plain
            self.old.heap.core.state holder.now.node field
            (with_field self.old.heap.core.state holder.now.node field (Word word))
            self.new.heap.core.state) }
        ensures fault { IfErr result (IsFieldFault is_plain
            self.old.heap.core.state holder.now.node field self.new.heap.core.state) }
        ensures stays { (o : Root) →
            Holds self.old.heap.core.state o → Holds self.new.heap.core.state o }
        ensures watches { (o : WeakRoot) →
            Watches self.old.heap.core.state self.old.watched o →
            Watches self.new.heap.core.state self.new.watched o }
        ensures shares { (o : SharedRoot) →
            Shares self.old.heap.core.state self.old.shared o →
            Shares self.new.heap.core.state self.new.shared o }
    {
        let command = Command::Put {
            p: holder.slot,
            f: field,
            n: word,
        };
        write(&mut self.heap, rt, &command)
    }

    /// The number that the holder's plain word is. An object's extra words are plain fields after those of
    /// its type.
    #[inline(always)]
    pub fn word<R: Threads + Wait + Copy + Send + 'static>(
        &mut self,
        rt: &R,
        holder: &Root,
        field: u32,
    ) -> Result<u64, FieldError>
        requires room { HasRoom self.old.heap.core.state 1 }
        requires field { field < 67108864 }
        requires holder { Holds self.old.heap.core.state holder.now }
        ensures setup { self.new.heap.core.setup ≡ self.old.heap.core.setup }
        ensures ordinal { self.new.heap.core.state.ordinal ≡ self.old.heap.core.state.ordinal + 1 }
        ensures state { IfOk result (λ _. IsFieldDone is_plain self.old.heap.core.state
            holder.now.node field self.old.heap.core.state self.new.heap.core.state) }
        ensures holds { IfOk result (λ word.
            first_held self.old.heap.core.state.nodes holder.now.node field ≡ Word word) }
        ensures fault { IfErr result (IsFieldFault is_plain
            self.old.heap.core.state holder.now.node field self.new.heap.core.state) }
        ensures stays { (o : Root) →
            Holds self.old.heap.core.state o → Holds self.new.heap.core.state o }
        ensures watches { (o : WeakRoot) →
            Watches self.old.heap.core.state self.old.watched o →
            Watches self.new.heap.core.state self.new.watched o }
        ensures shares { (o : SharedRoot) →
            Shares self.old.heap.core.state self.old.shared o →
            Shares self.new.heap.core.state self.new.shared o }
    {
        read_word(&mut self.heap, rt, holder.slot, field)
    }
}
