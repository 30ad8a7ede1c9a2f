// What a pause works on, and what it answers.

use callback_table::{CallbackTable, Registry, WeakRegistry};
use cross_thread_region::{Pass, Region};
use ghost_values::GhostValue;
use mark_worklist::Marking;
use page_words::MutatorSeat;
use persistent_slots::Slots;
use prefinalizer_effects::NodeLists;
use type_table::TypeTable;
use weak_clearing::Space;

/// The parts of a heap that a pause works on, each lent by its owner.
///
/// | lent to be changed | what it is |
/// |---|---|
/// | `seat` | the owner's access to the words |
/// | `nodes` | the nodes that the objects in the words are; contracts alone see them |
/// | `marking` | the owner's marking state |
/// | `weak` | weak slots |
/// | `registry` | the registered prefinalizers |
/// | `weak_calls` | the registered weak callbacks |
/// | `pass` | the owner's pass of the region |
///
/// | lent to be read | what it is |
/// |---|---|
/// | `space` | the pages, and the words |
/// | `types` | the types of the objects |
/// | `strong` | strong slots |
/// | `region` | the slots that threads share |
/// | `callbacks` | what callbacks do |
///
/// | told | what it is |
/// |---|---|
/// | `traced` | how many objects the cycle traced before the pause |
pub struct Parts<'a> {
    pub seat: &'a mut MutatorSeat,
    pub nodes: &'a mut GhostValue<NodeLists>,
    pub marking: &'a mut Marking,
    pub weak: &'a mut Slots,
    pub registry: &'a mut Registry,
    pub weak_calls: &'a mut WeakRegistry,
    pub pass: &'a mut Pass,
    pub space: &'a Space,
    pub types: &'a TypeTable,
    pub strong: &'a Slots,
    pub region: &'a Region,
    pub callbacks: &'a CallbackTable,
    pub traced: u32,
}

/// How many objects a pause kept, how many it condemned, how many it traced itself, and whether it
/// walked the heap, because a push or a note was refused.
#[derive(Clone, Copy, Debug, PartialEq, Eq, Drop)]
pub struct PauseResult {
    pub kept: u32,
    pub dead: u32,
    pub traced: u32,
    pub walked: bool,
}
