// Reading and writing the fields of a heap's objects.

ghost use Rattle.std.specs.Prelude.{◌≡◌, ℕ, Bool, List, true, false};
ghost use Rattle.std.specs.Prelude.{Some};
ghost use Rattle.gc_graph.specs.declared.kind.Value.{Value};
ghost use Rattle.gc_graph.specs.declared.kind.Value.TheVariants.{Word};
ghost use Rattle.gc_graph.specs.declared.phase.Phase.{Phase};
ghost use Rattle.gc_graph.specs.Fields.{is_reference, is_plain};
ghost use Rattle.gc_graph.specs.May.{may_with_read};
ghost use Rattle.gc_graph.specs.State.{graph_of};
ghost use Rattle.member_fields.specs.Barrier.{MayKeep, MayKeepNamed};
ghost use Rattle.heap_objects.specs.Fields.{allows, FindsField, IsFieldOf, value_in, TakesValue};
ghost use Rattle.heap_objects.specs.Objects.{IsLiveAt};
ghost use Rattle.atomic_pause.specs.Nodes.{AreOfValid, word_of, place_of};
ghost use Rattle.heap_objects.specs.Objects.{IsReferenceTo, target_in, written_in};
ghost use Rattle.heap_objects.specs.Objects.{setup_of_objects};
ghost use Rattle.heap_objects.specs.Marks.{HasMarks, IsTellingOn};

use crate::content::Content;
use crate::field::{Field, Wanted, wanted_field, write_field};
use crate::names::Names;
use crate::nodes;
use crate::objects::Objects;
use gc_graph::Refusal;
use ghost_values::GhostValue;
use member_fields::{get, get_word};
use object_headers::{SERIAL, place_in};
use page_words::{Reading, WeakRead};

impl Objects {
    /// Field f of the object at a place, where it is one of those wanted. A missing field is told
    /// before one of another kind.
    pub fn field_at(&mut self, place: u32, f: u32, wanted: Wanted) -> Result<Field, Refusal>
        requires valid { AreOfValid (setup_of_objects self.old) self.old.nodes }
        requires place { (n : ℕ) × IsLiveAt self.old.nodes n place }
        ensures field { (n : ℕ) → IsLiveAt self.old.nodes n place
            → FindsField (allows wanted) self.old.nodes n f result }
        ensures same { self.new ≡ self.old }
    {
        self.seat.bodies_lie_apart();
        let header = self.space.header_at(&mut self.seat, place);
        let extra = header.size - self.types.size_of(header.ty, 0);
        wanted_field(place, self.types.field_at(header.ty, extra, f), wanted)
    }

    /// The place and the number of what a strong or weak field names.
    pub fn target_at(&mut self, field: Field) -> Option<(u32, u32)>
        requires valid { AreOfValid (setup_of_objects self.old) self.old.nodes }
        requires field { (n : ℕ) × (f : ℕ) × IsFieldOf self.old.nodes n f field }
        requires reference { is_reference field.kind ≡ true }
        ensures target { (n f : ℕ) → IsFieldOf self.old.nodes n f field
            → result ≡ target_in self.old.nodes (value_in self.old.nodes n f) }
        ensures same { self.new ≡ self.old }
    {
        type_table::fields_stand_apart();
        let reference = get(&self.space, &mut self.seat, field.holder, field.word);
        self.named_by(reference)
    }

    /// The place and the number of what a reference names, or none where it is null.
    pub(crate) fn named_by(&mut self, reference: u64) -> Option<(u32, u32)>
        requires reference { (x : Value) × IsReferenceTo self.old.nodes x reference }
        ensures target { (x : Value) → IsReferenceTo self.old.nodes x reference
            → result ≡ target_in self.old.nodes x }
        ensures same { self.new ≡ self.old }
    {
        self.seat.bodies_lie_apart();
        match place_in(reference) {
            Some(place) => {
                let words = self.space.words();
                let number = words.load::<Reading>(&mut self.seat, place + SERIAL) as u32;
                Some((place, number))
            }
            None => None,
        }
    }

    /// The number in a plain field.
    pub fn word_at(&mut self, field: Field) -> u64
        requires valid { AreOfValid (setup_of_objects self.old) self.old.nodes }
        requires field { (n : ℕ) × (f : ℕ) × IsFieldOf self.old.nodes n f field }
        requires plain { is_plain field.kind ≡ true }
        ensures number { (n f : ℕ) → IsFieldOf self.old.nodes n f field
            → value_in self.old.nodes n f ≡ Word result }
        ensures same { self.new ≡ self.old }
    {
        type_table::fields_stand_apart();
        get_word(&self.space, &mut self.seat, field.holder, field.word)
    }

    /// The object at a place was read weakly: while marking goes on it may be kept, with all that it
    /// reaches.
    pub fn read_weakly(&mut self, place: u32)
        requires valid { AreOfValid (setup_of_objects self.old) self.old.nodes }
        requires place { (n : ℕ) × IsLiveAt self.old.nodes n place }
        ensures same { self.old.seat.on ≡ false → self.new ≡ self.old }
        ensures others { self.new ≡ record self.old { seat = self.new.seat } }
        ensures marks { (phase : Phase) (limit : ℕ) (may : List Bool) (n : ℕ)
            → IsLiveAt self.old.nodes n place → HasMarks phase limit may self.old → HasMarks phase
            limit (may_with_read phase (graph_of self.old.nodes) may n) self.new }
    {
        gc_graph::reach_is_least();
        self.seat.bodies_lie_apart();
        self.space.words().load::<WeakRead>(&mut self.seat, place);
    }

    /// Whether marking goes on: else a weak read keeps nothing.
    pub fn is_marking(&self) -> bool
        ensures { result ≡ self.now.seat.on }
    {
        self.grey.marking.on
    }

    /// Writes the content into the field, which is field f of the named object.
    pub fn store(&mut self, named: &GhostValue<Names>, f: u32, field: Field, content: &Content)
        requires valid { AreOfValid (setup_of_objects self.old) self.old.nodes }
        requires field { (n : ℕ) × (named.now.value ≡ Some n)
            × IsFieldOf self.old.nodes n f field }
        requires value { TakesValue field.kind self.old.nodes content.now.value.value }
        requires content { content.now.word
            ≡ word_of (place_of self.old.nodes) content.now.value.value }
        requires holder { MayKeep self.old.seat field.holder }
        requires kept { is_reference field.kind ≡ true
            → MayKeepNamed self.old.seat content.now.word }
        ensures nodes { self.new.nodes ≡ written_in self.old.nodes
            named.now.value f content.now.value.value }
        ensures marks { (phase : Phase) (limit : ℕ) (may : List Bool)
            → HasMarks phase limit may self.old → HasMarks phase limit may self.new }
        ensures setup { setup_of_objects self.new ≡ setup_of_objects self.old }
        ensures refused { IsTellingOn self.old self.new }
        ensures traced { self.new.grey.traced ≡ self.old.grey.traced }
        ensures running { self.new.grey.running ≡ self.old.grey.running }
    {
        self.seat.bodies_lie_apart();
        type_table::fields_stand_apart();
        self.space.lasts_while_objects_stay();
        write_field(
            &self.space,
            &mut self.seat,
            &mut self.grey.marking,
            field,
            content.word,
        );
        self.nodes = nodes::written(&self.nodes, named, f, content);
    }
}
