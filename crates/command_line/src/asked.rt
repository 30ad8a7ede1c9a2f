// What the matches of `clap` ask of each option.

ghost use Rattle.std.specs.Prelude.{◌≡◌, IfSome, IfOk, ok_or};
ghost use Rattle.clap.specs.Words.{found_of};
ghost use Rattle.command_line.specs.declared.options.OptionsFault.TheVariants.{Usage};
ghost use Rattle.command_line.specs.Options.{options_from, AreInRanges};
ghost use Rattle.command_line.specs.Heard.{Heard, Holds, IsAskedInRange, asked_by, options_heard};

use super::options::{Generated, Options, OptionsFault};
use super::ranges::{count_of, markers_of, page_size_of, pages_of, seed_of};
use clap::ArgMatches;

/// What was asked of each option.
#[derive(Clone, Copy)]
pub(crate) struct Asked {
    pub(crate) pages: Option<u32>,
    pub(crate) page_words: Option<u32>,
    pub(crate) markers: Option<u32>,
    pub(crate) summary: bool,
    pub(crate) seed: Option<u64>,
    pub(crate) count: Option<u32>,
}

/// The options that the matches ask for. Where they ask for none, the words are refused.
pub(crate) fn options_in(matches: &ArgMatches) -> Result<Options, OptionsFault>
    ensures options { (heard : Heard) → Holds (found_of matches.now) heard →
        result ≡ ok_or (options_heard heard) Usage }
    ensures ranges { IfOk result AreInRanges }
{
    match asked_in(matches) {
        Some(asked) => asked.options().ok_or(OptionsFault::Usage),
        None => Err(OptionsFault::Usage),
    }
}

// What the matches ask for, where each value is one that its option may have.
fn asked_in(matches: &ArgMatches) -> Option<Asked>
    ensures asked { (heard : Heard) → Holds (found_of matches.now) heard →
        result ≡ asked_by heard }
    ensures range { IfSome result IsAskedInRange }
{
    Some(Asked {
        pages: pages_of(matches.get_str("pages"))?,
        page_words: page_size_of(matches.get_str("page-words"))?,
        markers: markers_of(matches.get_str("markers"))?,
        summary: matches.get_flag("summary"),
        seed: seed_of(matches.get_str("generate"))?,
        count: count_of(matches.get_str("count"))?,
    })
}

impl Asked {
    /// The defaults with what was asked for.
    fn options(&self) -> Option<Options>
        requires { IsAskedInRange self.now }
        ensures options { result ≡ options_from self.now }
        ensures ranges { IfSome result AreInRanges }
    {
        let generated = match (self.seed, self.count) {
            (None, None) => None,
            (Some(seed), Some(count)) => Some(Generated { seed, count }),
            _ => return None,
        };
        Some(Options {
            pages: self.pages.unwrap_or(64),
            page_words: self.page_words.unwrap_or(16_384),
            markers: self.markers.unwrap_or(0),
            summary: self.summary,
            generated,
        })
    }
}
