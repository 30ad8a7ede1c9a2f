// Where two texts differ.

ghost use Rattle.std.specs.Prelude.{◌≡◌, ◌+◌, ◌≤◌, ◌==◌, None, not, length, take, IfSome};
ghost use Rattle.std.specs.Prelude.{slice_get, count_by};
ghost use Rattle.std.specs.List.{suffix_len};

/// Where a byte stands in a text, counted from 1.
#[derive(Clone, Copy, Drop)]
pub(crate) struct Place {
    pub(crate) line: usize,
    pub(crate) column: usize,
}

/// The number of bytes before the first that differs, or that one of the two lacks.
pub(crate) fn first_difference(one: &[u8], other: &[u8]) -> Option<usize>
    ensures none { result ≡ None → one.now ≡ other.now }
    ensures before { IfSome result (λ at. take at one.now ≡ take at other.now) }
    ensures there { IfSome result (λ at. ¬ (slice_get one.now at ≡ slice_get other.now at)) }
    ensures range { IfSome result (λ at. at ≤ length one.now) }
{
    let mut at = 0;
    while at < one.len() && at < other.len() {
        if one[at] != other[at] {
            return Some(at);
        }
        at += 1;
    }
    if one.len() == other.len() {
        None
    } else {
        Some(at)
    }
}

/// Where the byte stands that comes after so many.
pub(crate) fn place_of(text: &[u8], at: usize) -> Place
    requires { at ≤ length text.now }
    ensures line { result.line ≡ count_by (λ byte. byte == 10) (take at text.now) + 1 }
    ensures column { result.column
        ≡ suffix_len (λ byte. not (byte == 10)) (take at text.now) + 1 }
{
    let mut place = Place { line: 1, column: 1 };
    for byte in &text[..at] {
        if *byte == b'\n' {
            place.line += 1;
            place.column = 1;
        } else {
            place.column += 1;
        }
    }
    place
}
