// Words, and what a header word tells.

ghost use Rattle.std.specs.Prelude.{◌≡◌, slice_index};
ghost use Rattle.marker_core.specs.Layout.{bit_is_set, has_mark, has_traced, is_marked, is_traced};
ghost use Rattle.marker_core.specs.Layout.{is_start, with_start, without_start};

use marker_core::List;

/// The word at an address; 0 past the end.
pub fn word_at(words: &[u64], a: u64) -> u64
    ensures { result ≡ slice_index words.now a }
{
    words.get(a as usize).copied().unwrap_or(0)
}

pub fn has_mark(header: u64) -> bool
    ensures { result ≡ has_mark header }
{
    header / 2 % 2 == 1
}

pub fn has_traced(header: u64) -> bool
    ensures { result ≡ has_traced header }
{
    header / 4 % 2 == 1
}

pub fn is_marked(words: &[u64], a: u32) -> bool
    ensures { result ≡ is_marked words.now a }
{
    has_mark(word_at(words, u64::from(a)))
}

pub fn is_traced(words: &[u64], a: u32) -> bool
    ensures { result ≡ is_traced words.now a }
{
    has_traced(word_at(words, u64::from(a)))
}

pub fn is_start(count: u32, words: &[u64], a: u32) -> bool
    ensures { result ≡ is_start count words.now a }
{
    let word = word_at(words, u64::from(count) + u64::from(a / 64));
    (word >> (a % 64)) % 2 == 1
}

pub fn set_start(count: u32, words: &mut List<u64>, a: u32)
    ensures { words.new ≡ with_start count words.old a }
{
    let at = u64::from(count) + u64::from(a / 64);
    let word = word_at(words.as_slice(), at);
    words.set(at as usize, word | 1u64 << (a % 64));
}

pub fn clear_start(count: u32, words: &mut List<u64>, a: u32)
    ensures { words.new ≡ without_start count words.old a }
{
    let at = u64::from(count) + u64::from(a / 64);
    let word = word_at(words.as_slice(), at);
    words.set(at as usize, word & !(1u64 << (a % 64)));
}
