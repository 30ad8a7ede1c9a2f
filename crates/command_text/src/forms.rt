// A form: the word that chooses it, what may stand at each place after it, and which command the
// numbers make.

use super::making::SmallForm;
use super::wide::WideForm;

/// What may stand at a place that says a number of 32 bits. Both ends of a range belong to it.
#[derive(Clone, Copy)]
pub(crate) enum Spot {
    Number(u32, u32),
    NumberOrNull(u16, u16),
    TypeNumber,
    Want,
    GoOrJoin,
}

/// The command that the numbers of a line make.
#[derive(Clone, Copy)]
pub(crate) enum Make {
    Small(SmallForm),
    Wide(WideForm),
}

/// A form: the word that chooses it, its places, and how many of them must be there.
#[derive(Clone, Copy)]
pub(crate) struct Row {
    pub(crate) name: &'static [u8],
    pub(crate) spots: &'static [Spot],
    pub(crate) least: usize,
    pub(crate) make: Make,
}
