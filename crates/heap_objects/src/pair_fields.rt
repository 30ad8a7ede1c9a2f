// The ephemeron pairs of objects: how both words are written, and how one is read
// (`include/cppgc/ephemeron-pair.h`).

ghost use Rattle.std.specs.Prelude.{◌≡◌, ℕ, Bool, List, true};
ghost use Rattle.std.specs.Prelude.{Some};
ghost use Rattle.gc_graph.specs.declared.phase.Phase.{Phase};
ghost use Rattle.gc_graph.specs.Fields.{is_pair};
ghost use Rattle.heap_objects.specs.Fields.{IsFieldOf, part_in, ArePartsOf};
ghost use Rattle.heap_objects.specs.Objects.{target_in, paired_in};
ghost use Rattle.atomic_pause.specs.Nodes.{AreOfValid, word_of, place_of};
ghost use Rattle.heap_objects.specs.Objects.{setup_of_objects};
ghost use Rattle.heap_objects.specs.Marks.{HasMarks, IsTellingOn};
ghost use Rattle.member_fields.specs.Barrier.{MayKeep, MayKeepNamed};

use crate::content::Content;
use crate::field::{Field, Part};
use crate::names::Names;
use crate::nodes;
use crate::objects::Objects;
use ghost_values::GhostValue;
use member_fields::{read_pair, set_pair};
use type_table::fields_stand_apart;

/// What goes into a pair: both parts are null, or neither.
#[derive(Drop)]
pub struct PairContent {
    pub key: Content,
    pub value: Content,
}

impl Objects {
    /// The place and the number of what a part of a pair names.
    pub fn part_at(&mut self, field: Field, part: Part) -> Option<(u32, u32)>
        requires valid { AreOfValid (setup_of_objects self.old) self.old.nodes }
        requires field { (n : ℕ) × (f : ℕ) × IsFieldOf self.old.nodes n f field }
        requires pair { is_pair field.kind ≡ true }
        ensures target { (n f : ℕ) → IsFieldOf self.old.nodes n f field
            → result ≡ target_in self.old.nodes (part_in part self.old.nodes n f) }
        ensures same { self.new ≡ self.old }
    {
        fields_stand_apart();
        let (key, value) = read_pair(&self.space, &mut self.seat, field.holder, field.word);
        match part {
            Part::Key => self.named_by(key),
            Part::Value => self.named_by(value),
        }
    }

    /// Writes key and value into the pair, which is field f of the named object.
    pub fn store_pair(
        &mut self,
        named: &GhostValue<Names>,
        f: u32,
        field: Field,
        pair: &PairContent,
    )
        requires valid { AreOfValid (setup_of_objects self.old) self.old.nodes }
        requires field { (n : ℕ) × (named.now.value ≡ Some n)
            × IsFieldOf self.old.nodes n f field }
        requires kind { is_pair field.kind ≡ true }
        requires parts { ArePartsOf self.old.nodes pair.now.key.value.value
            pair.now.value.value.value }
        requires key { pair.now.key.word
            ≡ word_of (place_of self.old.nodes) pair.now.key.value.value }
        requires value { pair.now.value.word
            ≡ word_of (place_of self.old.nodes) pair.now.value.value.value }
        requires holder { MayKeep self.old.seat field.holder }
        requires key_kept { MayKeepNamed self.old.seat pair.now.key.word }
        requires value_kept { MayKeepNamed self.old.seat pair.now.value.word }
        ensures nodes { self.new.nodes
            ≡ paired_in self.old.nodes named.now.value f
            pair.now.key.value.value pair.now.value.value.value }
        ensures marks { (phase : Phase) (limit : ℕ) (may : List Bool)
            → HasMarks phase limit may self.old → HasMarks phase limit may self.new }
        ensures setup { setup_of_objects self.new ≡ setup_of_objects self.old }
        ensures refused { IsTellingOn self.old self.new }
        ensures traced { self.new.grey.traced ≡ self.old.grey.traced }
        ensures running { self.new.grey.running ≡ self.old.grey.running }
    {
        fields_stand_apart();
        self.seat.bodies_lie_apart();
        self.space.lasts_while_objects_stay();
        let Field { holder, word, .. } = field;
        let (key, value) = (pair.key.word, pair.value.word);
        let marking = &mut self.grey.marking;
        set_pair(
            &self.space,
            &mut self.seat,
            marking,
            holder,
            word,
            key,
            value,
        );
        self.nodes = nodes::paired(&self.nodes, named, f, pair);
    }
}
