// The numbers of the reasons for which no script is read.

pub const NO_MEMORY: u32 = 0;

/// The first line isn't the header.
pub const HEADER: u32 = 1;

/// A word is none of those that may stand there.
pub const UNKNOWN_WORD: u32 = 2;

/// A word is no number where one should be.
pub const BAD_NUMBER: u32 = 3;

/// There are fewer or more words than the form has.
pub const COUNT: u32 = 4;

/// A number is out of its range, or there are too many letters, callbacks or types.
pub const RANGE: u32 = 5;

/// A type line comes after a command.
pub const ORDER: u32 = 6;

/// The threads' orders don't stand between each other as they should.
pub const SECTION: u32 = 7;

/// There are too many bytes or lines.
pub const TOO_LONG: u32 = 8;

/// The rank of words that give no reason.
pub const FAULTLESS: u32 = 9;
