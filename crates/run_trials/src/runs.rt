// A run over devices in memory, and what comes of it.

ghost use Rattle.std.specs.Prelude.{◌≤◌};

use callback_table::CallbackTable;
use heap_script::{ListSink, ListSource, NoMemory};
use script_run::{Gate, Status, run, run_program};
use std::alloc::Global;
use std::str;
use std::sync::{Arc, Wait};
use std::thread::Threads;

/// How devices behave: they move at most so many bytes a call, and one call each fails, or none
/// where the number is 0. The sink has so much room.
#[derive(Clone, Copy, Drop)]
pub(crate) struct Devices {
    pub(crate) most: usize,
    pub(crate) bad_read: u32,
    pub(crate) bad_write: u32,
    pub(crate) room: usize,
}

pub(crate) const STEADY: Devices = Devices {
    most: 1_000_000,
    bad_read: 0,
    bad_write: 0,
    room: 1_000_000,
};

/// A script with the words of its run, which blanks part, and what the run writes.
#[derive(Clone, Copy, Drop)]
pub(crate) struct Case<'a> {
    pub(crate) words: &'a str,
    pub(crate) script: &'a [u8],
    pub(crate) report: &'a [u8],
}

/// A script of 56 bytes with its report of 119.
pub(crate) const PLAIN: Case<'_> = Case {
    words: "",
    script: b"oilpan 1\ntype S\nnew 0 0\ndrop 0\ngc now precise\nsweep all\n",
    report: b"type 0\nnode 0 at 0\nok\npause kept 0 dead 1 crew 0 traced 0 walked 0\nfinalise 0\n\
swept to 64\nend objects 0 used 0 pages 0\n",
};

/// The words of a run, where its script comes from, and where its report goes to.
#[derive(Drop)]
pub(crate) struct Run {
    words: Vec<String>,
    source: ListSource,
    sink: ListSink,
}

/// The run of a script with words that blanks part, over such devices.
pub(crate) fn run_of(
    alloc: Global,
    words: &str,
    script: &[u8],
    devices: Devices,
) -> Result<Run, NoMemory>
    requires { 1 ≤ devices.most }
{
    Ok(Run {
        words: words_of(alloc, words)?,
        source: source_of(alloc, script, devices)?,
        sink: sink_of(alloc, devices)?,
    })
}

fn words_of(alloc: Global, text: &str) -> Result<Vec<String>, NoMemory> {
    let mut words = Vec::new(alloc);
    for word in text.split_whitespace() {
        words.push(String::from_str(alloc, word)?)?;
    }
    Ok(words)
}

fn source_of(alloc: Global, script: &[u8], devices: Devices) -> Result<ListSource, NoMemory>
    requires { 1 ≤ devices.most }
{
    let bytes = Vec::from_slice(alloc, script)?;
    let bad = Vec::from_slice(alloc, &[devices.bad_read])?;
    Ok(ListSource::new(bytes, devices.most, bad))
}

fn sink_of(alloc: Global, devices: Devices) -> Result<ListSink, NoMemory>
    requires { 1 ≤ devices.most }
{
    let bad = Vec::from_slice(alloc, &[devices.bad_write])?;
    let mut sink = ListSink::new(alloc, devices.most, bad);
    sink.reserve(devices.room)?;
    Ok(sink)
}

/// Whether the run of the case ends so and has written so many bytes of its report, and a heap is
/// kept exactly where it is done.
pub(crate) fn comes_out<R: Threads + Wait + Copy + Send + 'static>(
    rt: &R,
    alloc: Global,
    case: Case<'_>,
    devices: Devices,
    status: Status,
    written: usize,
) -> bool
    requires { 1 ≤ devices.most }
{
    match run_of(alloc, case.words, case.script, devices) {
        Ok(mut run) => run.ends_so(rt, alloc, status)
            && is_start(run.sink.bytes(), case.report, written),
        Err(_) => false,
    }
}

/// Whether these bytes are the first of the report, and so many.
pub(crate) fn is_start(bytes: &[u8], report: &[u8], count: usize) -> bool {
    bytes.len() == count && report.starts_with(bytes)
}

impl Run {
    /// Whether the run ends so, and keeps its heap exactly where it is done.
    pub(crate) fn ends_so<R: Threads + Wait + Copy + Send + 'static>(
        &mut self,
        rt: &R,
        alloc: Global,
        status: Status,
    ) -> bool {
        match run_program(rt, alloc, &self.words, &mut self.source, &mut self.sink) {
            Ok(ran) => ran.status == status && ran.is_kept == (status == Status::Done),
            Err(_) => false,
        }
    }

    pub(crate) fn has_written(&self) -> bool {
        !self.sink.bytes().is_empty()
    }

    /// How the run behind the gate ends.
    pub(crate) fn status_behind<
        R: Threads + Wait + Copy + Send + 'static,
        G: Gate + Send + Sync + 'static,
    >(&mut self, rt: &R, alloc: Global, callbacks: &CallbackTable, gate: &Arc<G>) -> Status {
        let (source, sink) = (&mut self.source, &mut self.sink);
        run(
            rt,
            alloc,
            &self.words,
            source,
            sink,
            callbacks,
            gate,
            &mut None,
        )
    }

    /// What the run behind the gate, which has no callbacks, has written, where it is done; of
    /// another run nothing.
    pub(crate) fn report_behind<
        R: Threads + Wait + Copy + Send + 'static,
        G: Gate + Send + Sync + 'static,
    >(&mut self, rt: &R, alloc: Global, gate: &Arc<G>) -> &str {
        match self.status_behind(rt, alloc, &CallbackTable::new(Vec::new(alloc)), gate) {
            Status::Done => str::from_utf8(self.sink.bytes()).unwrap_or(""),
            _ => "",
        }
    }
}

/// Whether the run behind the gate is done, and has written one of the reports that bars part.
pub(crate) fn writes_one_of<
    R: Threads + Wait + Copy + Send + 'static,
    G: Gate + Send + Sync + 'static,
>(rt: &R, alloc: Global, words: &str, script: &[u8], gate: &Arc<G>, reports: &str) -> bool {
    match run_of(alloc, words, script, STEADY) {
        Ok(mut run) => is_one_of(run.report_behind(rt, alloc, gate), reports),
        Err(_) => false,
    }
}

fn is_one_of(report: &str, reports: &str) -> bool {
    reports.split('|').any(|one| one == report)
}
