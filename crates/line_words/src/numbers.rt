// The numbers of a script.

ghost use Rattle.std.specs.Prelude.{◌≡◌, ◌+◌, ◌*◌, ◌^◌, ◌==◌, ◌&&◌, ◌<◌, SomeIff, length, nat_lt, slice_index};
ghost use Rattle.std.specs.Prelude.{Some, None, if◌then◌else◌};
ghost use Rattle.gc_graph.specs.Words.{is_number, value_after, number_below as below};

/// The number that a word is, where it is one below the limit.
pub fn number_below(limit: u32, word: &[u8]) -> Option<u32>
    ensures { result ≡ below limit word.now }
{
    match number(word) {
        Some(value) if value < u64::from(limit) => Some(value as u32),
        _ => None,
    }
}

/// The number of 64 bits that a word is.
#[tactic(auto, using(crate::proofs::Values::values))]
#[inline]
pub fn number(word: &[u8]) -> Option<u64>
    ensures { result ≡ (if is_number word.now then Some (value_after 0 word.now) else None) }
{
    if word.is_empty() || begins_in_vain(word) {
        return None;
    }
    let mut value = 0u64;
    for byte in word {
        if *byte < b'0' || *byte > b'9' {
            return None;
        }
        let digit = u64::from(*byte - b'0');
        match with_digit(value, digit) {
            Some(next) => value = next,
            None => return None,
        }
    }
    Some(value)
}

// Whether a zero stands before other digits.
fn begins_in_vain(word: &[u8]) -> bool
    requires { 0 < length word.now }
    ensures { result ≡ (nat_lt 1 (length word.now) && (slice_index word.now 0 == 48)) }
{
    word.len() > 1 && word[0] == b'0'
}

// The number with one more digit, where it has 64 bits.
fn with_digit(value: u64, digit: u64) -> Option<u64>
    ensures { SomeIff result (value * 10 + digit < 2 ^ 64) (value * 10 + digit) }
{
    match value.checked_mul(10) {
        Some(tens) => tens.checked_add(digit),
        None => None,
    }
}
