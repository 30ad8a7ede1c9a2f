// The weak handles that objects hold.

ghost use Rattle.std.specs.Prelude.{◌≡◌, ℕ, ◌<◌, false, [], length};
ghost use Rattle.type_table.specs.Types.{declared_kinds, offsets_of_kind};
ghost use Rattle.weak_clearing.specs.Steps.{kind_of_handles};

use type_table::TypeTable;

/// Which fields of objects are cleared after marking.
#[derive(Clone, Copy, Drop)]
pub enum WeakHandles {
    /// Weak fields (`WeakMember`, `include/cppgc/member.h`).
    Fields,
    /// Ephemeron pairs (`EphemeronPair`, `include/cppgc/ephemeron-pair.h`).
    Pairs,
}

impl WeakHandles {
    /// The offsets of these in the objects of a type.
    pub fn words_of(self, types: &TypeTable, ty: u32) -> &[u32]
        requires ty { ty < length types.now }
        ensures { result.now
            ≡ offsets_of_kind (kind_of_handles self) (declared_kinds types.now ty) }
    {
        match self {
            WeakHandles::Fields => types.weak_words(ty),
            WeakHandles::Pairs => types.pair_words(ty),
        }
    }

    /// Whether a type has any of these.
    pub fn are_in(self, types: &TypeTable) -> bool
        ensures none { result ≡ false → (ty : ℕ) → ty < length types.now
            → offsets_of_kind (kind_of_handles self) (declared_kinds types.now ty) ≡ [] }
    {
        for ty in 0..types.count() {
            if !self.words_of(types, ty).is_empty() {
                return true;
            }
        }
        false
    }
}
