// The row of a table that a word chooses.

ghost use Rattle.std.specs.Prelude.{◌≡◌, true, IfSome};
ghost use Rattle.std.specs.List.{list_all};
ghost use Rattle.gc_graph.specs.Forms.{row_named};
ghost use Rattle.command_text.specs.Rows.{SameRow, RowTest, are_distinct, rows_by};

use super::forms::Row;

// Where the row that a word chooses is likely to stand in the table of first words.
pub(crate) fn likely_place(word: &[u8]) -> usize {
    if word.len() < 3 {
        return usize::MAX;
    }
    match (word[0], word[1]) {
        (b'n', _) => 0,
        (b's', b'e') => 1,
        (b'p', b'a') => 2,
        (b'p', b'u') => if word.len() == 3 { 3 } else { 12 },
        (b'w', b'o') => 4,
        (b'g', _) => 5,
        (b'k', _) => 6,
        (b'v', _) => 7,
        (b'c', _) => 8,
        (b'd', _) => 9,
        (b'w', _) => 10,
        (b'r', _) => 11,
        (b'p', b'o') => 14,
        (b'p', _) => 15,
        (b's', b'w') => 16,
        (b's', _) => 17,
        (b'e', _) => 18,
        (b'i', _) => 19,
        (b't', _) => 20,
        _ => usize::MAX,
    }
}

// The row that a word chooses, looked for at one place first.
pub(crate) fn row_near(table: &'static [Row], word: &[u8], place: usize) -> Option<&'static Row>
    ghost test: { RowTest }
    requires distinct { are_distinct table.now ≡ true }
    requires tested { list_all test table.now ≡ true }
    ensures same { SameRow result (row_named word.now (rows_by table.now)) }
    ensures sound { IfSome result (λ row. test row.now ≡ true) }
{
    if place < table.len() && word == table[place].name {
        return Some(&table[place]);
    }
    row_in(table, word)
}

#[inline(never)]
pub(crate) fn row_in(table: &'static [Row], word: &[u8]) -> Option<&'static Row>
    ghost test: { RowTest }
    requires { list_all test table.now ≡ true }
    ensures same { SameRow result (row_named word.now (rows_by table.now)) }
    ensures sound { IfSome result (λ row. test row.now ≡ true) }
{
    for row in table {
        if word == row.name {
            return Some(row);
        }
    }
    None
}
