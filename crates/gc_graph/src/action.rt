// What callbacks do (`include/cppgc/prefinalizer.h`, `include/cppgc/visitor.h`).

/// What a callback does to the object that field `link` of its own object names.
///
/// | action | |
/// |---|---|
/// | `Nothing` | nothing |
/// | `Clear` | its field `field` becomes null |
/// | `Add` | the amount is added to its plain word `field`, modulo 2^64 |
#[derive(Clone, Copy, Drop)]
pub enum Action {
    Nothing,
    Clear { link: u32, field: u32 },
    Add { link: u32, field: u32, amount: u64 },
}

/// Which action a callback answers, from the shown words of its object: a plain word as it is, 0 for
/// a null reference and 1 for any other; and to a weak callback 2 for a weak field that was cleared.
///
/// | kind | action |
/// |---|---|
/// | `Nothing`, `Clear`, `Add` | that one |
/// | `AddOwn` | adds shown word `from`, or 0 where there is none |
/// | `ClearIf` | clears where shown word `word` is there and isn't 0 |
#[derive(Clone, Copy, Drop)]
pub enum ActionKind {
    Nothing,
    Clear { link: u32, field: u32 },
    Add { link: u32, field: u32, amount: u64 },
    AddOwn { link: u32, field: u32, from: u32 },
    ClearIf { link: u32, field: u32, word: u32 },
}
