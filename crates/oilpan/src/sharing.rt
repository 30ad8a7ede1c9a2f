// Which slots of the region are given out.

ghost use Rattle.std.specs.Prelude.{◌≡◌, ◌≢◌, ◌<◌, ◌≤◌, ℕ, IfSome, false, true, length};
ghost use Rattle.std.specs.Prelude.{slice_index_or};
ghost use Rattle.oilpan.specs.declared.sharing.Sharing.TheVariants.{Free, Released};
ghost use Rattle.oilpan.specs.Clearing.{HasReleased};

/// Whether a slot of the region is given out.
#[derive(Clone, Copy, PartialEq, Eq, Drop)]
pub(crate) enum Sharing {
    /// It is null.
    Free,
    /// A shared root has it.
    Given,
    /// Its shared root was given back, and no thread has cleared it yet.
    Released,
}

/// The first slot that is null.
pub(crate) fn free_slot(shared: &[Sharing]) -> Option<u32>
    requires { length shared.now ≤ 32 }
    ensures low { IfSome result (λ i. i < length shared.now) }
    ensures free { IfSome result (λ i. slice_index_or shared.now i Free ≡ Free) }
{
    for i in 0..shared.len() {
        if shared[i] == Sharing::Free {
            return Some(i as u32);
        }
    }
    None
}

/// Whether some slot was given back that no thread has cleared yet.
pub(crate) fn has_released(shared: &[Sharing]) -> bool
    ensures some { result ≡ true → HasReleased shared.now }
    ensures none { result ≡ false → (z : ℕ) → slice_index_or shared.now z Free ≢ Released }
{
    for i in 0..shared.len() {
        if shared[i] == Sharing::Released {
            return true;
        }
    }
    false
}
