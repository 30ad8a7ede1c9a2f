// One case, from its files to how it came out.

use super::differences::{Place, first_difference, place_of};
use heap_script::{ListSink, ListSource, NoMemory, read_whole};
use script_run::{Ran, Status, run_program};
use std::alloc::Global;
use std::io::ErrorKind;
use std::sync::Wait;
use std::thread::Threads;
use std::{fmt, fs, io};

/// The most bytes of a report, and of a script that is left.
const ROOM: usize = 16_777_216;

/// How a case came out.
#[derive(Clone, Copy, Drop)]
pub(crate) enum Verdict {
    Same,
    /// The run ended in this way, and not as it has to.
    Ended(Status),
    /// What was written differs first from the report here.
    Differs(Place),
    /// The heap of a run that is not done was kept, or that of one that is done was not.
    Heap,
    /// The words were refused or ask for a generated script, and yet something was read.
    Input,
}

impl fmt::Display for Verdict {
    fn fmt<W: fmt::Write>(&self, f: &mut fmt::Formatter<W>) -> fmt::Result {
        match *self {
            Verdict::Same => f.write_str("same"),
            Verdict::Ended(status) => write!(f, "ended: {status}"),
            Verdict::Differs(Place { line, column }) => {
                write!(f, "differs at line {line} column {column}")
            }
            Verdict::Heap => f.write_str("kept the wrong heap"),
            Verdict::Input => f.write_str("read its input"),
        }
    }
}

/// What has to come of a case: the message of its status, as a line, and what it writes.
#[derive(Drop)]
struct Wanted {
    message: Vec<u8>,
    report: Vec<u8>,
}

/// What came of it, and how many bytes of its input are left.
#[derive(Drop)]
struct Trial {
    ran: Ran,
    sink: ListSink,
    left: usize,
}

/// How the case of this name comes out, whose heap starts no thread unless it has markers.
pub(crate) fn tried<R: Threads + Wait + Copy + Send + 'static>(
    rt: &HostRuntime,
    threads: &R,
    name: &str,
) -> io::Result<Verdict> {
    let words = words_of(rt, name)?;
    let script = script_of(rt, name)?;
    let length = script.len();
    let trial = trial_of(threads, rt.alloc(), &words, script)?;
    let wanted = wanted_of(rt, name)?;
    if trial.left != length && lets_input_alone(&words, trial.ran.status) {
        return Ok(Verdict::Input);
    }
    verdict_of(rt.alloc(), &wanted, &trial)
}

fn lets_input_alone(words: &[String], status: Status) -> bool {
    status == Status::Usage || words.iter().any(|word| word.starts_with("--generate"))
}

/// The file of a case with this ending, where there is one.
fn file_of(rt: &HostRuntime, name: &str, ending: &str) -> io::Result<Option<Vec<u8>>> {
    let path = format!(in rt.alloc(); "{name}.{ending}")?;
    match fs::read(rt, path.as_str()) {
        Ok(bytes) => Ok(Some(bytes)),
        Err(error) => match error.kind() {
            ErrorKind::NotFound => Ok(None),
            _ => Err(error),
        },
    }
}

fn script_of(rt: &HostRuntime, name: &str) -> io::Result<Vec<u8>> {
    match file_of(rt, name, "heap")? {
        Some(script) => Ok(script),
        None => fs::read(rt, "default.heap"),
    }
}

fn words_of(rt: &HostRuntime, name: &str) -> io::Result<Vec<String>> {
    let mut words = Vec::new(rt.alloc());
    if let Some(bytes) = file_of(rt, name, "words")? {
        for line in str::from_utf8(&bytes).unwrap_or("").lines() {
            words.push(String::from_str(rt.alloc(), line)?)?;
        }
    }
    Ok(words)
}

fn wanted_of(rt: &HostRuntime, name: &str) -> io::Result<Wanted> {
    match file_of(rt, name, "report")? {
        Some(report) => Ok(Wanted {
            message: Vec::from_slice(rt.alloc(), b"done\n")?,
            report,
        }),
        None => Ok(Wanted {
            message: file_of(rt, name, "ends")?.unwrap_or(Vec::new(rt.alloc())),
            report: Vec::new(rt.alloc()),
        }),
    }
}

fn trial_of<R: Threads + Wait + Copy + Send + 'static>(
    threads: &R,
    alloc: Global,
    words: &[String],
    script: Vec<u8>,
) -> io::Result<Trial> {
    match run_of(threads, alloc, words, script) {
        Ok(trial) => Ok(trial),
        Err(_) => Err(io::Error::from(ErrorKind::OutOfMemory)),
    }
}

/// Runs a script between devices in memory that don't fail.
fn run_of<R: Threads + Wait + Copy + Send + 'static>(
    threads: &R,
    alloc: Global,
    words: &[String],
    script: Vec<u8>,
) -> Result<Trial, NoMemory> {
    let mut source = ListSource::new(script, ROOM, Vec::new(alloc));
    let mut sink = ListSink::new(alloc, ROOM, Vec::new(alloc));
    sink.reserve(ROOM)?;
    let ran = run_program(threads, alloc, words, &mut source, &mut sink)?;
    let left = match read_whole(alloc, &mut source, ROOM) {
        Ok(bytes) => bytes.len(),
        Err(_) => return Err(NoMemory),
    };
    Ok(Trial { ran, sink, left })
}

fn verdict_of(alloc: Global, wanted: &Wanted, trial: &Trial) -> io::Result<Verdict> {
    let status = trial.ran.status;
    let message = format!(in alloc; "{status}\n")?;
    if message.as_bytes() != wanted.message.as_slice() {
        return Ok(Verdict::Ended(status));
    }
    let written = trial.sink.bytes();
    if let Some(at) = first_difference(written, &wanted.report) {
        return Ok(Verdict::Differs(place_of(written, at)));
    }
    if trial.ran.is_kept != (status == Status::Done) {
        return Ok(Verdict::Heap);
    }
    Ok(Verdict::Same)
}
