// The forms whose last number may be wider than 32 bits.

ghost use Rattle.std.specs.Prelude.{◌≡◌, ℕ, ◌+◌, ◌≤◌, ◌^◌, ◌∷◌, [], ◌++◌, ◌||◌, ◌&&◌, nat_le, nat_lt, not, false, if◌then◌else◌, codes};
ghost use Rattle.gc_graph.specs.Forms.{sweep_command as sweep_of};
ghost use Rattle.gc_graph.specs.Reasons.{Bounds as GrammarBounds, says, is_beyond, value_of};
ghost use Rattle.gc_graph.specs.Words.{is_number, is_text};
ghost use Rattle.command_text.specs.Ranks.{rank_at, rank_by};
ghost use Rattle.command_text.specs.Rows.{IsLow, wide_command_of, wide_place_of};
ghost use Rattle.command_text.specs.Said.{list_of};

use super::making::when;
use super::reasons::{BAD_NUMBER, FAULTLESS, RANGE};
use super::said::Said;
use gc_graph::Command;
use line_words::number;

/// The command that the numbers of a line make, where the last one may have 64 bits or is one more
/// than 32 bits hold.
#[derive(Clone, Copy)]
pub(crate) enum WideForm {
    Put,
    PushPlain,
    Sweep,
}

/// The number of the lowest reason that a word gives, or 9; and the number that the word says, which
/// counts only there.
#[derive(Clone, Copy)]
pub(crate) struct WideReading {
    pub(crate) rank: u32,
    pub(crate) value: u64,
}

pub(crate) fn read_wide(form: WideForm, word: &[u8]) -> WideReading
    ensures rank { (bounds : GrammarBounds) →
        result.rank ≡ rank_at bounds (wide_place_of form) word.now }
    ensures value { result.rank ≡ 9 → says (wide_place_of form) word.now ≡ result.value ∷ [] }
    ensures low { IsLow form result.value }
{
    match form {
        WideForm::Put => read_any(word),
        WideForm::PushPlain => read_any(word),
        WideForm::Sweep => read_pages(word),
    }
}

fn read_any(word: &[u8]) -> WideReading
    ensures rank { result.rank ≡
        rank_by false (not (is_number word.now)) false (is_beyond 0 (2 ^ 64) word.now) }
    ensures value { result.rank ≡ 9 → result.value ≡ value_of word.now }
{
    match number(word) {
        Some(value) => WideReading {
            rank: FAULTLESS,
            value,
        },
        None => WideReading {
            rank: BAD_NUMBER,
            value: 0,
        },
    }
}

fn read_pages(word: &[u8]) -> WideReading
    ensures rank { result.rank ≡
        rank_by false (not (is_text word.now (codes "all") || is_number word.now)) false
        (is_beyond 1 4294967296 word.now) }
    ensures value { result.rank ≡ 9 →
        (if is_text word.now (codes "all") then 0 else value_of word.now + 1) ≡ result.value }
    ensures low { result.value ≤ 2 ^ 32 }
{
    if word == b"all".as_slice() {
        return WideReading {
            rank: FAULTLESS,
            value: 0,
        };
    }
    match number(word) {
        Some(value) => judged_pages(value),
        None => WideReading {
            rank: BAD_NUMBER,
            value: 0,
        },
    }
}

fn judged_pages(value: u64) -> WideReading
    ensures rank { result.rank ≡ (if nat_le 1 value && nat_lt value 4294967296 then 9 else 5) }
    ensures value { result.rank ≡ 9 → result.value ≡ value + 1 }
    ensures low { result.value ≤ 2 ^ 32 }
{
    if value >= 1 && value < 4_294_967_296 {
        return WideReading {
            rank: FAULTLESS,
            value: value + 1,
        };
    }
    WideReading {
        rank: RANGE,
        value: 0,
    }
}

#[tactic(auto, using(crate::proofs::Shapes::wide_shapes))]
pub(crate) fn wide_command(form: WideForm, said: Said, value: u64) -> Option<Command>
    requires { IsLow form value }
    ensures { result ≡ wide_command_of form (list_of said ++ value ∷ []) }
{
    let count = said.count;
    match form {
        WideForm::Put => when(
            count == 2,
            Command::Put {
                p: said.a,
                f: said.b,
                n: value,
            },
        ),
        WideForm::PushPlain => when(count == 0, Command::PushPlain { n: value }),
        WideForm::Sweep => sweep_command(said, value),
    }
}

#[tactic(auto, using(crate::proofs::Shapes::wide_shapes))]
fn sweep_command(said: Said, value: u64) -> Option<Command>
    requires { value ≤ 2 ^ 32 }
    ensures { result ≡ sweep_of (list_of said ++ value ∷ []) }
{
    if said.count != 0 {
        return None;
    }
    match value {
        0 => Some(Command::SweepAll),
        _ => Some(Command::Sweep {
            n: (value - 1) as u32,
        }),
    }
}
