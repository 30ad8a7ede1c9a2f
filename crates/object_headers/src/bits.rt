// The bits of a header word that change while an object lives.

ghost use Rattle.std.specs.Prelude.{◌≡◌, ℕ, Bool};
ghost use Rattle.object_headers.specs.Layout.{header_word, word_with_mark, word_with_traced};

const MARK: u64 = 2;

const TRACED: u64 = 4;

/// The word with the mark set or cleared.
#[tactic(auto, using(crate::proofs::OneBit::mark_set, crate::proofs::OneBit::mark_cleared))]
pub fn with_mark(word: u64, on: bool) -> u64
    ensures bit { result ≡ word_with_mark on word }
    ensures header { (live mark traced : Bool) (ty size : ℕ)
        → word ≡ header_word live mark traced ty size
        → result ≡ header_word live on traced ty size }
{
    if on { word | MARK } else { word & !MARK }
}

/// The word with the traced bit set or cleared.
#[tactic(auto, using(crate::proofs::OneBit::traced_set, crate::proofs::OneBit::traced_cleared))]
pub fn with_traced(word: u64, on: bool) -> u64
    ensures bit { result ≡ word_with_traced on word }
    ensures header { (live mark traced : Bool) (ty size : ℕ)
        → word ≡ header_word live mark traced ty size
        → result ≡ header_word live mark on ty size }
{
    if on { word | TRACED } else { word & !TRACED }
}
