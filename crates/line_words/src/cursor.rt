// The words of a line by their places, found in one pass: a look stops at a space or at a line's end.

ghost use Rattle.std.specs.Prelude.{◌≡◌, ◌≤◌, length};
ghost use Rattle.line_words.specs.Cursor.{IsNextWord, IsPastSpaces, IsWordEnd};

/// The next word of the line from `from` on: its first place and the place after it.
pub fn next_word(bytes: &[u8], from: usize) -> (usize, usize)
    requires { from ≤ length bytes.now }
    ensures { IsNextWord bytes.now from result.0 result.1 }
{
    let start = past_spaces(bytes, from);
    let end = word_end(bytes, start);
    (start, end)
}

#[tactic(auto, using(crate::proofs::WordPlaces::spaces))]
pub(crate) fn past_spaces(bytes: &[u8], from: usize) -> usize
    requires { from ≤ length bytes.now }
    ensures { IsPastSpaces bytes.now from result }
{
    let mut place = from;
    while place < bytes.len() && bytes[place] == b' ' {
        place += 1;
    }
    place
}

#[tactic(auto, using(crate::proofs::WordPlaces::ends))]
pub(crate) fn word_end(bytes: &[u8], start: usize) -> usize
    requires { start ≤ length bytes.now }
    ensures { IsWordEnd bytes.now start result }
{
    let mut place = start;
    while place < bytes.len() && bytes[place] != b' ' && bytes[place] != b'\n' {
        place += 1;
    }
    place
}
