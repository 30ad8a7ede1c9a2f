//! # The command line
//!
//! What it is: what the words of the command line ask the program for. `clap` reads them. It knows
//! neither scripts nor heaps.
//!
//! The parts: `options_of` (the options that words ask for), `Options` and `Generated`, `OptionsFault`
//! (why there are none), in `rules` what `clap` is told, in `asked` and `ranges` what is made of its
//! matches, and in `laws` what holds of the definitions.
//!
//! What is proved: options are given only where each word names an option of the program with a value
//! in its range, none stands twice, and a seed and a count come together; they are the defaults but for
//! what the words set. Words are told to be refused only where they are, and two dashes alone always.
//! An error of `clap` is told as want of memory just where it is that, and what is refused of words that
//! it has read is told as refused. The order of settings means nothing, and `--name=value` says what
//! `--name value` says.
//!
//! What is only tested or not said: that the definitions are those of the formats, and that memory is
//! wanting only where there is none, by a table of words.
#![tactic(auto)]

mod asked;
mod laws;
mod options;
mod ranges;
mod rules;

pub use laws::{equals_sign_joins, order_means_nothing};
pub use options::{Generated, Options, OptionsFault, options_of};

#[cfg(test)]
mod tests;
