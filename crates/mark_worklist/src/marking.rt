// The owner's marking state.

ghost use Rattle.mark_worklist.specs.Refusals.{PushesOrTells, TellsRefused, refusals_of};

use crate::worklist::Worklist;

/// What the owner of a heap keeps of the marking that goes on.
///
/// | field | it tells |
/// |---|---|
/// | `on` | marking goes on |
/// | `overflow` | a push was refused since this was cleared: a marked object may be on no list |
/// | `list` | places of objects that were marked and may still have to be traced |
#[derive(Drop)]
pub struct Marking {
    pub on: bool,
    pub overflow: bool,
    pub list: Worklist,
}

impl Marking {
    /// Lists the place of a marked object. A refused push raises `overflow`, and the object stays
    /// marked.
    pub fn push(&mut self, place: u32)
        ensures listed { PushesOrTells self.old self.new place }
        ensures told { TellsRefused (refusals_of self.old) (refusals_of self.new) }
    {
        if self.list.push(place).is_err() {
            self.overflow = true;
        }
    }
}
