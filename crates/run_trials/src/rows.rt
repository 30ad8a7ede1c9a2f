// What a row of a table says: numbers in decimal digits, one of them an exit status.

use heap_script::number_below;
use script_run::Status;

/// The number at this place of the row; without one, none of those that a row has.
pub(crate) fn number_at(row: &str, place: usize) -> u32 {
    let word = row.split(' ').nth(place).unwrap_or("");
    number_below(u32::MAX, word.as_bytes()).unwrap_or(u32::MAX)
}

/// How a run ended whose exit status has this place in the row; 2 is said of input that is too long.
pub(crate) fn status_at(row: &str, place: usize) -> Status {
    match number_at(row, place) {
        0 => Status::Done,
        2 => Status::TooLong,
        3 => Status::ReadFault,
        4 => Status::WriteFault,
        _ => Status::NoMemory,
    }
}
