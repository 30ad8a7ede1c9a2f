// The fields of a node.

/// What kind of field it is, and with that which words it takes.
///
/// | kind | words | cppgc |
/// |---|---|---|
/// | `Strong` | one reference, which is traced | `Member`, `include/cppgc/member.h` |
/// | `Weak` | one reference, which keeps nothing | `WeakMember`, `include/cppgc/member.h` |
/// | `Pair` | a key and its value | `EphemeronPair`, `include/cppgc/ephemeron-pair.h` |
/// | `Plain` | one number | a field that isn't traced |
#[derive(Clone, Copy, PartialEq, Eq, Drop)]
pub enum Kind {
    Strong,
    Weak,
    Pair,
    Plain,
}

/// What one word of a field holds. A reference names a node by its number.
#[derive(Clone, Copy, Drop)]
pub enum Value {
    Null,
    Ref(u32),
    Word(u64),
}
