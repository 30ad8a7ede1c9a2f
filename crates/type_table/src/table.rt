// All types of a heap, with their layouts.

ghost use Rattle.std.specs.Prelude.{◌≡◌, ℕ, ◌+◌, ◌-◌, ◌^◌, ◌<◌, ◌≤◌, length};
ghost use Rattle.std.specs.Prelude.{slice_index_or, MatchOption};
ghost use Rattle.std.specs.Prelude.{IfOk, OnOk, IfErr, All};
ghost use Rattle.gc_graph.specs.declared.kind.Kind.TheVariants.{Strong, Weak, Pair, Plain};
ghost use Rattle.gc_graph.specs.State.{ObjectType};
ghost use Rattle.object_headers.specs.Offsets.{first_field};
ghost use Rattle.type_table.specs.Types as spec;
ghost use Rattle.type_table.specs.Layouts as layouts;
ghost use Rattle.type_table.specs.TracedWords.{traced_words_of};
ghost use Rattle.type_table.specs.Faults.{AreGoodTypes, HasMaskedWords, IsTypeFault};

use crate::decl::TypeDecl;
use crate::faults::{TypeFault, fault_of};
use crate::layout::Layout;
use crate::traced::TracedWord;
use gc_graph::{Kind, NoMemory};
use object_headers::FIRST_FIELD;
use std::alloc::Global;
use std::marker::Model;

/// The types of a heap by number, each with its layout. Nothing changes it.
#[derive(Drop)]
pub struct TypeTable {
    types: Vec<TypeDecl>,
    layouts: Vec<Layout>,
}

impl Model for TypeTable {
    ghost use Rattle.std.specs.Prelude.{◌≡◌, ◌≤◌, List, length, All};
    ghost use Rattle.gc_graph.specs.State.{ObjectType};
    ghost use Rattle.type_table.specs.Layouts.{layouts_of};
    ghost use Rattle.type_table.specs.Faults.{HasMaskedWords};

    ghost Value = { List ObjectType };

    ghost view = { λ t. t.types.items };

    ghost invariant = { λ t. (length t.types.items ≤ 16383)
        × (All (λ type. length type.kinds ≤ 64) t.types.items)
        × (All HasMaskedWords t.types.items)
        × (t.layouts.items ≡ layouts_of t.types.items) };
}

impl TypeTable {
    /// `callbacks` is how many callbacks there are. When memory is wanting is free.
    pub fn new(alloc: Global, types: Vec<TypeDecl>, callbacks: u32) -> Result<TypeTable, TypeFault>
        ensures table { IfOk result (λ table. table ≡ types.items) }
        ensures good { OnOk result (AreGoodTypes callbacks types.items) }
        ensures fault { IfErr result (IsTypeFault callbacks types.items) }
    {
        match fault_of(types.as_slice(), callbacks) {
            Some(fault) => return Err(fault),
            None => {}
        }
        match layouts_of(alloc, types.as_slice()) {
            Ok(layouts) => Ok(TypeTable { types, layouts }),
            Err(_) => Err(TypeFault::NoMemory),
        }
    }

    /// How many types there are.
    pub fn count(&self) -> u32
        ensures value { result ≡ length self.now }
        ensures few { length self.now ≤ 16383 }
        ensures narrow { All (λ type. length type.kinds ≤ 64) self.now }
    {
        self.types.len() as u32
    }

    /// How many fields an object has, its extra words among them.
    pub fn field_count(&self, ty: u32, extra: u32) -> u32
        requires ty { ty < length self.now }
        requires extra { extra ≤ 2 ^ 25 }
        ensures value { result ≡ spec.count_with (spec.declared_kinds self.now ty) extra }
        ensures narrow { length (spec.declared_kinds self.now ty) ≤ 64 }
    {
        self.decl(ty).fields().len() as u32 + extra
    }

    /// How many words an object has, its header and serial number among them.
    pub fn size_of(&self, ty: u32, extra: u32) -> u32
        requires ty { ty < length self.now }
        requires extra { extra ≤ 2 ^ 25 }
        ensures size { result ≡ spec.size_with (spec.declared_kinds self.now ty) extra }
        ensures most { result ≤ extra + 130 }
    {
        self.layout(ty).words() + extra + FIRST_FIELD
    }

    /// The kind of a field, and the offset of its first word from the object's place; none where
    /// there is no such field.
    pub fn field_at(&self, ty: u32, extra: u32, field: u32) -> Option<(Kind, u32)>
        requires ty { ty < length self.now }
        requires extra { extra ≤ 2 ^ 25 }
        ensures { MatchOption result
            (spec.count_with (spec.declared_kinds self.now ty) extra ≤ field)
            (spec.IsFieldAt (spec.declared_kinds self.now ty) extra field) }
    {
        let kinds = self.decl(ty).fields();
        let count = kinds.len() as u32;
        if field < count {
            return Some((kinds[field as usize], self.layout(ty).offset(field)));
        }
        if field < count + extra {
            return Some((Kind::Plain, self.size_of(ty, 0) + (field - count)));
        }
        None
    }

    /// The kind of the field to which the word at an offset from the object's place belongs. The
    /// offsets 0 and 1 are those of the header and of the serial number.
    pub fn kind_at(&self, ty: u32, word: u32) -> Kind
        requires ty { ty < length self.now }
        requires word { first_field ≤ word }
        ensures { (field : ℕ) → spec.IsWordOfField (spec.declared_kinds self.now ty) field word →
            result ≡ spec.kind_of (spec.declared_kinds self.now ty) field }
    {
        self.layout(ty).kind(word as usize - FIRST_FIELD as usize)
    }

    /// The offsets of the strong fields, in their order.
    pub fn strong_words(&self, ty: u32) -> &[u32]
        requires { ty < length self.now }
        ensures { result.now ≡ spec.offsets_of_kind Strong (spec.declared_kinds self.now ty) }
    {
        self.layout(ty).strong()
    }

    /// The offsets of the weak fields, in their order.
    pub fn weak_words(&self, ty: u32) -> &[u32]
        requires { ty < length self.now }
        ensures { result.now ≡ spec.offsets_of_kind Weak (spec.declared_kinds self.now ty) }
    {
        self.layout(ty).weak()
    }

    /// The offsets of the keys of the pairs, in their order.
    pub fn pair_words(&self, ty: u32) -> &[u32]
        requires { ty < length self.now }
        ensures { result.now ≡ spec.offsets_of_kind Pair (spec.declared_kinds self.now ty) }
    {
        self.layout(ty).pairs()
    }

    /// The strong fields and the pairs, in the order of their offsets: what an object's tracing
    /// reads.
    pub fn traced_words(&self, ty: u32) -> &[TracedWord]
        requires { ty < length self.now }
        ensures { result.now ≡ traced_words_of (spec.declared_kinds self.now ty) }
    {
        self.layout(ty).traced()
    }

    /// The numbers of the callbacks that are the type's prefinalizers.
    pub fn callbacks(&self, ty: u32) -> &[u32]
        requires { ty < length self.now }
        ensures { result.now ≡ (spec.type_of self.now ty).prefinalizers }
    {
        self.decl(ty).callbacks()
    }

    /// The numbers of the callbacks that are the type's weak callbacks.
    pub fn weak_callbacks(&self, ty: u32) -> &[u32]
        requires { ty < length self.now }
        ensures value { result.now ≡ (spec.type_of self.now ty).weak_callbacks }
        ensures words { HasMaskedWords (spec.type_of self.now ty) }
    {
        self.decl(ty).weak()
    }

    fn decl(&self, ty: u32) -> &TypeDecl
        requires { ty < length self.now }
        ensures value { result.now ≡ spec.type_of self.now ty }
        ensures narrow { length (spec.declared_kinds self.now ty) ≤ 64 }
        ensures words { HasMaskedWords (spec.type_of self.now ty) }
    {
        &self.types[ty as usize]
    }

    fn layout(&self, ty: u32) -> &Layout
        requires { ty < length self.now }
        ensures value { result.now ≡ layouts.layout_of (spec.declared_kinds self.now ty) }
        ensures narrow { length (spec.declared_kinds self.now ty) ≤ 64 }
    {
        &self.layouts[ty as usize]
    }
}

fn layouts_of(alloc: Global, types: &[TypeDecl]) -> Result<Vec<Layout>, NoMemory>
    requires { All (λ type. length type.kinds ≤ 64) types.now }
    ensures { IfOk result (λ found. found.items ≡ layouts.layouts_of types.now) }
{
    let mut found = Vec::new(alloc);
    for decl in types {
        found.push(Layout::new(alloc, decl.fields())?)?;
    }
    Ok(found)
}
