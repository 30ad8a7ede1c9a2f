// Which slots are given out.

ghost use Rattle.std.specs.Prelude.{◌≡◌, ◌<◌, ◌≤◌, false, true, IfSome, length, slice_index_or};

/// A flag that isn't set: the likely one, or else the first.
#[inline(always)]
pub(crate) fn free_flag(flags: &[bool], likely: u8) -> Option<u32>
    requires { length flags.now ≤ 256 }
    ensures low { IfSome result (λ i. i < length flags.now) }
    ensures free { IfSome result (λ i. slice_index_or flags.now i true ≡ false) }
{
    let at = usize::from(likely);
    if at < flags.len() && !flags[at] {
        Some(u32::from(likely))
    } else {
        first_free(flags)
    }
}

#[inline(never)]
fn first_free(flags: &[bool]) -> Option<u32>
    requires { length flags.now ≤ 256 }
    ensures low { IfSome result (λ i. i < length flags.now) }
    ensures free { IfSome result (λ i. slice_index_or flags.now i true ≡ false) }
{
    for i in 0..flags.len() {
        if !flags[i] {
            return Some(i as u32);
        }
    }
    None
}
