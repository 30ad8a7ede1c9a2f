// The state of the machine: the words, the mutator's view, and the markers' views.

use crate::lists::List;
use gc_graph::Kind;

/// The words, and what the mutator and each marker know of them.
///
/// | field | what it is |
/// |---|---|
/// | `count` | how many words the heap has |
/// | `types` | the kinds of each type's fields |
/// | `words` | the heap's words, then a start bit for each of them, 64 to a word, then the stop word |
/// | `mutator`, `markers` | the views; a marker is named by its position |
#[derive(Drop)]
pub struct CoreState {
    pub count: u32,
    pub types: List<List<Kind>>,
    pub words: List<u64>,
    pub mutator: MutatorView,
    pub markers: List<MarkerView>,
}

/// An object: the address of its header, its type, its size in words, its serial number, and the
/// words after these two.
#[derive(Drop)]
pub struct Body {
    pub place: u32,
    pub ty: u32,
    pub size: u32,
    pub serial: u32,
    pub fields: List<u64>,
}

/// What the mutator knows. Places are addresses of headers.
///
/// | field | what it is |
/// |---|---|
/// | `bodies` | the published objects, in the order in which they were published |
/// | `dead` | the places that were unmarked when marking ended, and are not yet retracted |
/// | `on` | marking goes on |
/// | `pending` | what a store wrote into a strong field or as a pair's value, until it is marked |
/// | `may` | the places that this cycle may keep |
/// | `seen` | the places that the mutator marked, or found marked, in this cycle |
/// | `marked`, `traced` | the places whose mark or traced bit the mutator set |
/// | `noted` | the pairs whose key was unmarked: the holder's place, and the key's offset |
/// | `hand` | the object that the mutator traces |
/// | `lent` | how many markers hold a view that isn't spent |
/// | `filled` | addresses outside the objects that were written, with the word |
/// | `looked`, `done`, `missed` | the headers that were loaded; those that were found traced; those that could not be claimed |
/// | `early` | how long `looked` was when marking ended |
#[derive(Drop)]
pub struct MutatorView {
    pub bodies: List<Body>,
    pub dead: List<u32>,
    pub on: bool,
    pub pending: Option<u32>,
    pub may: List<u32>,
    pub seen: List<u32>,
    pub marked: List<u32>,
    pub traced: List<u32>,
    pub noted: List<(u32, u32)>,
    pub hand: Option<Hand>,
    pub lent: u64,
    pub filled: List<(u32, u64)>,
    pub looked: List<u32>,
    pub early: u64,
    pub done: List<u32>,
    pub missed: List<u32>,
}

/// What a marker knows. `spent` is a view that was given back; `known` are places of objects;
/// `halted` says that the stop word was read as 1; `last` is the place and the word of the last look
/// at a header. The other fields are those of `MutatorView`.
#[derive(Drop)]
pub struct MarkerView {
    pub spent: bool,
    pub known: List<u32>,
    pub marked: List<u32>,
    pub traced: List<u32>,
    pub noted: List<(u32, u32)>,
    pub hand: Option<Hand>,
    pub done: List<u32>,
    pub missed: List<u32>,
    pub halted: bool,
    pub last: Option<(u32, u64)>,
}

/// An object that is being traced: its place, its type as the claimed header told it, and the
/// offset, from the place, of the strong word or the pair at hand.
#[derive(Clone, Copy, Debug, PartialEq, Eq, Drop)]
pub struct Hand {
    pub place: u32,
    pub ty: u32,
    pub next: u32,
    pub part: Part,
}

/// How far the word or the pair at hand is traced.
///
/// | part | what comes next |
/// |---|---|
/// | `Read` | the word, or the pair's key, is to be read |
/// | `Mark(t)` | the object at t was read, and is to be marked |
/// | `Key(k)` | the key at k was read, and its header is to be read |
/// | `Value` | the key was seen marked, and the pair's value is to be read |
#[derive(Clone, Copy, Debug, PartialEq, Eq, Drop)]
pub enum Part {
    Read,
    Mark(u32),
    Key(u32),
    Value,
}

/// What the mutator loads a word for: to read it, as a weak read of the object whose header it is,
/// or to trace the object in its hand.
#[derive(Clone, Copy, Debug, PartialEq, Eq, Drop)]
pub enum Why {
    Read,
    Weak,
    Trace,
}

/// What a word of an object holds, by the field that it belongs to.
#[derive(Clone, Copy, Debug, PartialEq, Eq, Drop)]
pub enum Role {
    StrongWord,
    WeakWord,
    KeyWord,
    ValueWord,
    PlainWord,
}
