// The two words of a pair, of which one alone may be null.

ghost use Rattle.std.specs.Prelude.{◌≡◌, ◌&&◌, if◌then◌else◌};
ghost use Rattle.command_text.specs.declared.forms.Make.{Make};
ghost use Rattle.command_text.specs.Rows.{makes_pair};
ghost use Rattle.command_text.specs.Said.{is_half_said};

use super::making::SmallForm;
use super::reasons::{BAD_NUMBER, FAULTLESS};
use super::said::Said;

/// The rank of a line by its pair, where its form has one. Null says 0, and a number says more, also
/// where it is out of its range.
#[inline(always)]
pub(crate) fn half_rank(form: SmallForm, said: Said) -> u32
    ensures { result ≡ (if makes_pair (Make.Small form) && is_half_said said then 3 else 9) }
{
    match form {
        SmallForm::Pair if said.count == 4 && (said.c == 0) != (said.d == 0) => BAD_NUMBER,
        _ => FAULTLESS,
    }
}
