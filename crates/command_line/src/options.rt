// The options of the program.

ghost use Rattle.std.specs.Prelude.{◌≡◌, ◌↔◌, Some, None, true, map, string_bytes};
ghost use Rattle.std.specs.Prelude.{IfOk, IfErr, IsErrOf};
ghost use Rattle.std.specs.List.{list_any};
ghost use Rattle.clap.specs.Words.{kind_of};
ghost use Rattle.clap.specs.declared.error.kind.ErrorKind.TheVariants.{OutOfMemory};
ghost use Rattle.command_line.specs.declared.options.OptionsFault.TheVariants.{NoMemory, Usage};
ghost use Rattle.command_line.specs.Options.{options_asked, AreInRanges};
ghost use Rattle.command_line.specs.ClapRules.{is_lone};

use super::asked::options_in;
use super::rules::command;
use clap::error::ErrorKind;
use std::alloc::{AllocError, Global};
use thiserror::Error;

/// What the program is asked for.
///
/// | option | field | values | default |
/// |---|---|---|---|
/// | `--pages N` | `pages` | 1 to 1,024 | 64 |
/// | `--page-words W` | `page_words` | powers of two from 256 to 16,384 | 16,384 |
/// | `--markers N` | `markers` | 0 to 8 | 0 |
/// | `--summary` | `summary` | | not asked for |
/// | `--generate SEED` and `--count N` | `generated` | of 64 bits; 1 to 50,000 | nothing generated |
#[derive(Clone, Copy, Debug, PartialEq, Eq, Drop)]
pub struct Options {
    pub pages: u32,
    pub page_words: u32,
    pub markers: u32,
    pub summary: bool,
    pub generated: Option<Generated>,
}

/// A script that is generated from a seed, in so many turns.
#[derive(Clone, Copy, Debug, PartialEq, Eq, Drop)]
pub struct Generated {
    pub seed: u64,
    pub count: u32,
}

/// Why there are no options.
#[derive(Debug, PartialEq, Eq, Drop, Error)]
pub enum OptionsFault {
    /// The words are refused.
    #[error("usage")]
    Usage,
    /// The allocator gave no memory to read them.
    #[error("no memory")]
    NoMemory,
}

impl From<AllocError> for OptionsFault {
    ghost from_gives = { λ _ fault. fault ≡ NoMemory };

    fn from(_refused: AllocError) -> OptionsFault {
        OptionsFault::NoMemory
    }
}

impl From<clap::Error> for OptionsFault {
    ghost from_gives = { λ error fault. (fault ≡ Usage) ↔ ¬ (kind_of error ≡ OutOfMemory) };

    fn from(error: clap::Error) -> OptionsFault {
        match error.kind() {
            ErrorKind::OutOfMemory => OptionsFault::NoMemory,
            _ => OptionsFault::Usage,
        }
    }
}

/// The options that the words ask for. When memory is wanting is free, also where the words are refused,
/// but for two dashes alone.
pub fn options_of(alloc: Global, words: &[String]) -> Result<Options, OptionsFault>
    ensures asked { IfOk result (λ options.
        options_asked (map string_bytes words.now) ≡ Some options) }
    ensures refused { IfErr result (λ fault.
        fault ≡ Usage → options_asked (map string_bytes words.now) ≡ None) }
    ensures lone { list_any is_lone (map string_bytes words.now) ≡ true →
        IsErrOf result Usage }
    ensures ranges { IfOk result AreInRanges }
{
    if has_lone_dashes(words) {
        return Err(OptionsFault::Usage);
    }
    let matches = command(alloc)?.try_get_matches_from(words)?;
    options_in(&matches)
}

// Whether a word is `--`, which `clap` would take.
fn has_lone_dashes(words: &[String]) -> bool
    ensures { result ≡ list_any is_lone (map string_bytes words.now) }
{
    words.iter().any(|word| word.as_bytes() == b"--".as_slice())
}
