// Strong and weak fields of objects.

ghost use Rattle.std.specs.Prelude.{◌≡◌, ◌+◌, ◌<◌, ◌≤◌, IfOk, IfErr, IfSome};
ghost use Rattle.gc_graph.specs.declared.kind.Value.TheVariants.{Null, Ref};
ghost use Rattle.gc_graph.specs.Fields.{is_reference};
ghost use Rattle.gc_graph.specs.ClearingLaw.{first_held};
ghost use Rattle.gc_graph.specs.HandleLaw.{with_field};
ghost use Rattle.oilpan.specs.declared.handles.Root.{Root};
ghost use Rattle.oilpan.specs.declared.handles.SharedRoot.{SharedRoot};
ghost use Rattle.oilpan.specs.declared.handles.WeakRoot.{WeakRoot};
ghost use Rattle.oilpan.specs.Handles.{HasRoom, Holds, Shares, Watches};
ghost use Rattle.oilpan.specs.Fields.{IsFieldDone, IsFieldFault, IsGetFault, IsNamed, HasField};

use crate::asking::write;
use crate::errors::{FieldError, GetError};
use crate::flags::free_flag;
use crate::handles::Root;
use crate::heap::Oilpan;
use gc_graph::Command;
use heap_engine::Gate;
use std::sync::Wait;
use std::thread::Threads;

impl<'a, G: Gate + Send + Sync + 'static> Oilpan<'a, G> {
    /// The holder's field names the target afterwards.
    #[inline(always)]
    pub fn set<R: Threads + Wait + Copy + Send + 'static>(
        &mut self,
        rt: &R,
        holder: &Root,
        field: u32,
        target: &Root,
    ) -> Result<(), FieldError>
        requires room { HasRoom self.old.heap.core.state 1 }
        requires field { field < 67108864 }
        requires holder { Holds self.old.heap.core.state holder.now }
        requires target { Holds self.old.heap.core.state target.now }
        ensures setup { self.new.heap.core.setup ≡ self.old.heap.core.setup }
        ensures ordinal { self.new.heap.core.state.ordinal ≡ self.old.heap.core.state.ordinal + 1 }
        ensures names { IfOk result (λ _. IsFieldDone is_reference
            self.old.heap.core.state holder.now.node field
            (with_field self.old.heap.core.state holder.now.node field (Ref target.now.node))
            self.new.heap.core.state) }
        ensures fault { IfErr result (IsFieldFault is_reference
            self.old.heap.core.state holder.now.node field self.new.heap.core.state) }
        ensures stays { (o : Root) →
            Holds self.old.heap.core.state o → Holds self.new.heap.core.state o }
        ensures watches { (o : WeakRoot) →
            Watches self.old.heap.core.state self.old.watched o →
            Watches self.new.heap.core.state self.new.watched o }
        ensures shares { (o : SharedRoot) →
            Shares self.old.heap.core.state self.old.shared o →
            Shares self.new.heap.core.state self.new.shared o }
    {
        let command = Command::Set {
            p: holder.slot,
            f: field,
            q: target.slot,
        };
        write(&mut self.heap, rt, &command)
    }

    /// The holder's field is null afterwards.
    pub fn clear<R: Threads + Wait + Copy + Send + 'static>(
        &mut self,
        rt: &R,
        holder: &Root,
        field: u32,
    ) -> Result<(), FieldError>
        requires room { HasRoom self.old.heap.core.state 1 }
        requires field { field < 67108864 }
        requires holder { Holds self.old.heap.core.state holder.now }
        ensures setup { self.new.heap.core.setup ≡ self.old.heap.core.setup }
        ensures ordinal { self.new.heap.core.state.ordinal ≡ self.old.heap.core.state.ordinal + 1 }
        ensures null { IfOk result (λ _. IsFieldDone is_reference
            self.old.heap.core.state holder.now.node field
            (with_field self.old.heap.core.state holder.now.node field Null)
            self.new.heap.core.state) }
        ensures fault { IfErr result (IsFieldFault is_reference
            self.old.heap.core.state holder.now.node field self.new.heap.core.state) }
        ensures stays { (o : Root) →
            Holds self.old.heap.core.state o → Holds self.new.heap.core.state o }
        ensures watches { (o : WeakRoot) →
            Watches self.old.heap.core.state self.old.watched o →
            Watches self.new.heap.core.state self.new.watched o }
        ensures shares { (o : SharedRoot) →
            Shares self.old.heap.core.state self.old.shared o →
            Shares self.new.heap.core.state self.new.shared o }
    {
        let command = Command::SetNull {
            p: holder.slot,
            f: field,
        };
        write(&mut self.heap, rt, &command)
    }

    /// A root for what the holder's field names.
    #[inline(always)]
    pub fn get<R: Threads + Wait + Copy + Send + 'static>(
        &mut self,
        rt: &R,
        holder: &Root,
        field: u32,
    ) -> Result<Option<Root>, GetError>
        requires room { HasRoom self.old.heap.core.state 1 }
        requires field { field < 67108864 }
        requires holder { Holds self.old.heap.core.state holder.now }
        ensures setup { self.new.heap.core.setup ≡ self.old.heap.core.setup }
        ensures ordinal { self.new.heap.core.state.ordinal ≤ self.old.heap.core.state.ordinal + 1 }
        ensures nodes { self.new.heap.core.state.nodes ≡ self.old.heap.core.state.nodes }
        ensures field { IfOk result (λ _.
            HasField is_reference self.old.heap.core.state holder.now.node field) }
        ensures names { IfOk result (IsNamed
            (first_held self.old.heap.core.state.nodes holder.now.node field)) }
        ensures fault { IfErr result (IsGetFault is_reference
            self.old.heap.core.state holder.now.node field) }
        ensures held { IfOk result (λ o. IfSome o (Holds self.new.heap.core.state)) }
        ensures fresh { IfOk result (λ o. IfSome o (λ r. (o : Root) →
            Holds self.old.heap.core.state o → ¬ (o.slot ≡ r.slot))) }
        ensures stays { (o : Root) →
            Holds self.old.heap.core.state o → Holds self.new.heap.core.state o }
        ensures watches { (o : WeakRoot) →
            Watches self.old.heap.core.state self.old.watched o →
            Watches self.new.heap.core.state self.new.watched o }
        ensures shares { (o : SharedRoot) →
            Shares self.old.heap.core.state self.old.shared o →
            Shares self.new.heap.core.state self.new.shared o }
    {
        let Some(slot) = free_flag(&self.taken, self.likely) else {
            return Err(GetError::Handles);
        };
        let command = Command::Get {
            p: holder.slot,
            f: field,
            q: slot,
        };
        Ok(self.read_into(rt, &command, slot)?)
    }
}
