//! # Scripts as files
//!
//! What it is: a program that runs each case of `data/` on a heap of its own, and tells how it came
//! out. `cases.txt` lists the cases by name. NAME.heap is a case's script (no such file:
//! `default.heap`), and NAME.words its words, one a line (no such file: no words). NAME.report is what
//! the run writes; where it is not to be done, NAME.ends has in its place the message of the status
//! with which it ends, and nothing is written. A further case is such files, and a line in `cases.txt`
//! and in `stdout`.
//!
//! The parts: `cases` (one case, from its files to how it came out), `differences` (the first byte
//! in which two texts differ, and where it stands).
//!
//! What is proved: the byte that is told is the first that differs, and none is told where the texts
//! are the same; its line and its column are those of this byte.
//!
//! What is only tested or not said: what the files give, and so how each case comes out. What has to
//! be written was worked out by hand from docs/FORMATS.md, and never taken from a run.
#![tactic(auto)]

mod cases;
mod differences;

use std::{fs, io};

fn main(rt: HostRuntime) -> io::Result<()> {
    let names = fs::read_to_string(&rt, "cases.txt")?;
    for name in names.lines() {
        let verdict = cases::tried(&rt, &rt, name)?;
        println!(rt; "{name} {verdict}")?;
    }
    Ok(())
}
