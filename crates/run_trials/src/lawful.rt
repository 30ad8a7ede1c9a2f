// What a report may say of a collection beside markers: rules of the formats, with numbers by hand.

use super::rows::number_at;

/// A script of one collection that its markers work on, and a later `gc now precise`, with what is
/// known of it whatever the markers did. No object is made after the pause.
#[derive(Clone, Copy, Drop)]
pub(crate) struct Trial {
    pub(crate) script: &'static str,
    /// How many objects there are at the pause.
    pub(crate) objects: u32,
    /// How many of them it has to keep: slots reach them then, or an object that a write marked.
    pub(crate) least: u32,
    /// How many it must not keep: nothing reached them from the start on.
    pub(crate) garbage: u32,
    /// How many `gc now precise` keeps: slots reach them then.
    pub(crate) left: u32,
    /// What is read after the pause, with the lines next to it.
    pub(crate) reads: &'static str,
    /// The last line.
    pub(crate) end: &'static str,
}

/// Whether the report is one that the script may have.
pub(crate) fn is_lawful(trial: &Trial, report: &str) -> bool {
    let pause = line_of(report, "pause ", 0);
    let (kept, dead) = (number_at(pause, 2), number_at(pause, 4));
    kept.saturating_add(dead) == trial.objects
        && trial.least <= kept
        && trial.garbage <= dead
        && traced_of(report, pause) == kept
        && pause.ends_with(" walked 0")
        && is_last(trial, line_of(report, "pause ", 1), kept)
        && count_of(report, "finalise ", "") == trial.objects.saturating_sub(trial.left)
        && report.contains(trial.reads)
        && report.ends_with(trial.end)
}

/// How many objects steps, markers and the pause traced.
fn traced_of(report: &str, pause: &str) -> u32 {
    sum_of(report, "step ", 2)
        .saturating_add(number_at(pause, 6))
        .saturating_add(number_at(pause, 8))
}

/// Whether this is the line of `gc now precise`, where the pause before kept so many.
fn is_last(trial: &Trial, pause: &str, kept: u32) -> bool {
    number_at(pause, 2) == trial.left
        && number_at(pause, 4) == kept.saturating_sub(trial.left)
        && number_at(pause, 6) == 0
        && number_at(pause, 8) == trial.left
        && pause.ends_with(" walked 0")
}

/// The line that begins so and has so many before it; without one, no words.
pub(crate) fn line_of<'a>(report: &'a str, start: &str, before: u32) -> &'a str {
    let mut found = 0u32;
    for line in report.lines() {
        if line.starts_with(start) {
            if found == before {
                return line;
            }
            found = found.saturating_add(1);
        }
    }
    ""
}

/// How many lines stand before the first one that begins so; without one, more than a report has.
pub(crate) fn place_of(report: &str, start: &str) -> u32 {
    let mut place = 0u32;
    for line in report.lines() {
        if line.starts_with(start) {
            return place;
        }
        place = place.saturating_add(1);
    }
    u32::MAX
}

/// The sum of the numbers at this place over the lines that begin so.
fn sum_of(report: &str, start: &str, place: usize) -> u32 {
    let mut sum = 0u32;
    for line in report.lines() {
        if line.starts_with(start) {
            sum = sum.saturating_add(number_at(line, place));
        }
    }
    sum
}

/// How many lines begin and end so.
pub(crate) fn count_of(report: &str, start: &str, end: &str) -> u32 {
    let mut count = 0u32;
    for line in report.lines() {
        if line.starts_with(start) && line.ends_with(end) {
            count = count.saturating_add(1);
        }
    }
    count
}
