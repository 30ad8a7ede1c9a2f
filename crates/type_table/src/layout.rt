// Where the fields of one type stand, worked out once.

ghost use Rattle.std.specs.Prelude.{◌≡◌, ◌<◌, ◌≤◌, length, slice_index, slice_index_or, IfOk};
ghost use Rattle.gc_graph.specs.declared.kind.Kind.TheVariants.{Plain};
ghost use Rattle.gc_graph.specs.Fields as fields;
ghost use Rattle.type_table.specs.Types as spec;
ghost use Rattle.type_table.specs.Layouts as layouts;

use crate::traced::{TracedWord, traced_words_of};
use gc_graph::{Kind, NoMemory};
use object_headers::FIRST_FIELD;
use std::alloc::Global;
use std::marker::Model;

#[derive(Drop)]
pub(crate) struct Layout {
    words: u32,
    offsets: Vec<u32>,
    kinds: Vec<Kind>,
    strong: Vec<u32>,
    weak: Vec<u32>,
    pairs: Vec<u32>,
    traced: Vec<TracedWord>,
}

impl Model for Layout {
    ghost use Rattle.type_table.specs.Layouts.{LayoutState};

    ghost Value = { LayoutState };

    ghost view = { λ l. record {
      words = l.words;
      offsets = l.offsets.items;
      kinds = l.kinds.items;
      strong = l.strong.items;
      weak = l.weak.items;
      pairs = l.pairs.items;
      traced = l.traced.items;
    } };
}

impl Layout {
    pub(crate) fn new(alloc: Global, kinds: &[Kind]) -> Result<Layout, NoMemory>
        requires { length kinds.now ≤ 64 }
        ensures { IfOk result (λ layout. layout ≡ layouts.layout_of kinds.now) }
    {
        let offsets = offsets_of(alloc, kinds)?;
        let strong = offsets_where(alloc, kinds, &offsets, Kind::Strong)?;
        let weak = offsets_where(alloc, kinds, &offsets, Kind::Weak)?;
        let pairs = offsets_where(alloc, kinds, &offsets, Kind::Pair)?;
        let traced = traced_words_of(alloc, kinds)?;
        let by_word = kinds_of_words(alloc, kinds)?;
        Ok(Layout {
            words: field_words(kinds),
            offsets,
            kinds: by_word,
            strong,
            weak,
            pairs,
            traced,
        })
    }

    /// How many words the declared fields take.
    pub(crate) fn words(&self) -> u32
        ensures { result ≡ self.now.words }
    {
        self.words
    }

    /// The offset of a declared field.
    pub(crate) fn offset(&self, field: u32) -> u32
        requires { field < length self.now.offsets }
        ensures { result ≡ slice_index self.now.offsets field }
    {
        self.offsets[field as usize]
    }

    /// The kind of the field to which a word belongs, the header not counted.
    pub(crate) fn kind(&self, word: usize) -> Kind
        ensures { result ≡ slice_index_or self.now.kinds word Plain }
    {
        match self.kinds.get(word) {
            Some(kind) => *kind,
            None => Kind::Plain,
        }
    }

    pub(crate) fn strong(&self) -> &[u32]
        ensures { result.now ≡ self.now.strong }
    {
        self.strong.as_slice()
    }

    pub(crate) fn weak(&self) -> &[u32]
        ensures { result.now ≡ self.now.weak }
    {
        self.weak.as_slice()
    }

    pub(crate) fn pairs(&self) -> &[u32]
        ensures { result.now ≡ self.now.pairs }
    {
        self.pairs.as_slice()
    }

    pub(crate) fn traced(&self) -> &[TracedWord]
        ensures { result.now ≡ self.now.traced }
    {
        self.traced.as_slice()
    }
}

pub(crate) fn words_of(kind: Kind) -> u32
    ensures value { result ≡ fields.words_of_kind kind }
    ensures few { result ≤ 2 }
{
    match kind {
        Kind::Strong | Kind::Weak | Kind::Plain => 1,
        Kind::Pair => 2,
    }
}

pub(crate) fn field_words(kinds: &[Kind]) -> u32
    requires { length kinds.now ≤ 64 }
    ensures { result ≡ fields.field_words kinds.now }
{
    let mut words = 0;
    for kind in kinds {
        words += words_of(*kind);
    }
    words
}

fn offsets_of(alloc: Global, kinds: &[Kind]) -> Result<Vec<u32>, NoMemory>
    requires { length kinds.now ≤ 64 }
    ensures { IfOk result (λ offsets. offsets.items ≡ layouts.offsets_of kinds.now) }
{
    let mut offsets = Vec::new(alloc);
    let mut next = FIRST_FIELD;
    for kind in kinds {
        offsets.push(next)?;
        next += words_of(*kind);
    }
    Ok(offsets)
}

fn kinds_of_words(alloc: Global, kinds: &[Kind]) -> Result<Vec<Kind>, NoMemory>
    ensures { IfOk result (λ by_word. by_word.items ≡ layouts.kinds_of_words kinds.now) }
{
    let mut by_word = Vec::new(alloc);
    for kind in kinds {
        by_word.push(*kind)?;
        if is_kind(Kind::Pair, *kind) {
            by_word.push(*kind)?;
        }
    }
    Ok(by_word)
}

fn offsets_where(
    alloc: Global,
    kinds: &[Kind],
    offsets: &[u32],
    wanted: Kind,
) -> Result<Vec<u32>, NoMemory>
    requires few { length kinds.now ≤ 64 }
    requires offsets { offsets.now ≡ layouts.offsets_of kinds.now }
    ensures { IfOk result (λ found. found.items ≡ spec.offsets_of_kind wanted kinds.now) }
{
    let mut found = Vec::new(alloc);
    for (field, kind) in kinds.iter().enumerate() {
        if is_kind(wanted, *kind) {
            found.push(offsets[field])?;
        }
    }
    Ok(found)
}

fn is_kind(wanted: Kind, kind: Kind) -> bool
    ensures { result ≡ spec.is_kind wanted kind }
{
    wanted == kind
}
