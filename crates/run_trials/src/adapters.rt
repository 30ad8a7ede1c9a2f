// The devices over the standard streams, over readers and writers of std that move few bytes, fail,
// or take nothing. The adapters tell no bytes, so these tests alone show which bytes they pass on.

use super::rows::{number_at, status_at};
use super::runs::{PLAIN, is_start};
use script_run::{Status, StdinSource, StdoutSink, run_program};
use std::alloc::Global;
use std::io;
use std::io::{ErrorKind, Read, Write};
use std::sync::Wait;
use std::thread::Threads;

/// Gives its bytes, at most so many a call; the call of this number fails, counted from 1.
#[derive(Drop)]
struct Trickle<'a> {
    bytes: &'a [u8],
    at: usize,
    most: usize,
    bad: u32,
    calls: u32,
}

impl<'a> Read for Trickle<'a> {
    fn read(&mut self, buffer: &mut [u8]) -> io::Result<usize> {
        self.calls = self.calls.saturating_add(1);
        if self.calls == self.bad {
            return Err(io::Error::from(ErrorKind::BrokenPipe));
        }
        let rest = self.bytes.get(self.at..).unwrap_or(b"");
        let count = buffer.len().min(self.most).min(rest.len());
        buffer[..count].copy_from_slice(&rest[..count]);
        self.at = self.at.saturating_add(count);
        Ok(count)
    }
}

/// Keeps what it takes, at most so many bytes a call. The calls of these numbers fail and take
/// nothing.
#[derive(Drop)]
struct Drip {
    taken: Vec<u8>,
    most: usize,
    bad: u32,
    idle: u32,
    calls: u32,
}

impl Write for Drip {
    fn write(&mut self, piece: &[u8]) -> io::Result<usize> {
        self.calls = self.calls.saturating_add(1);
        if self.calls == self.bad {
            return Err(io::Error::from(ErrorKind::BrokenPipe));
        }
        if self.calls == self.idle {
            return Ok(0);
        }
        let count = piece.len().min(self.most);
        match self.taken.extend_from_slice(&piece[..count]) {
            Ok(()) => Ok(count),
            Err(_) => Err(io::Error::from(ErrorKind::OutOfMemory)),
        }
    }

    fn flush(&mut self) -> io::Result<()> {
        Ok(())
    }
}

// How many bytes the reader gives a call, and which call of it fails; how many the writer takes,
// which call of it fails, and which takes nothing; the exit status; how many bytes are written.
const STREAMS: &str = "\
1 0 1 0 0 0 119
7 0 7 0 0 0 119
1000 0 1000 0 0 0 119
1000 0 50 1 0 4 0
1000 0 50 0 1 4 0
1000 0 50 2 0 4 50
1000 0 50 0 2 4 50
1000 0 50 3 0 4 100
1000 0 50 0 3 4 100
";

/// Whether the script's run ends as the row says. `bad_read` takes the place of a reader's call that
/// the row names.
fn is_right<R: Threads + Wait + Copy + Send + 'static>(
    rt: &R,
    alloc: Global,
    row: &str,
    bad_read: u32,
) -> bool {
    let mut reader = Trickle {
        bytes: PLAIN.script,
        at: 0,
        most: number_at(row, 0) as usize,
        bad: bad_read,
        calls: 0,
    };
    let mut writer = Drip {
        taken: Vec::new(alloc),
        most: number_at(row, 2) as usize,
        bad: number_at(row, 3),
        idle: number_at(row, 4),
        calls: 0,
    };
    ends_so(rt, alloc, &mut reader, &mut writer, status_at(row, 5))
        && is_start(&writer.taken, PLAIN.report, number_at(row, 6) as usize)
}

fn ends_so<R: Threads + Wait + Copy + Send + 'static>(
    rt: &R,
    alloc: Global,
    reader: &mut Trickle<'_>,
    writer: &mut Drip,
    status: Status,
) -> bool {
    let mut source = StdinSource::over(reader);
    match run_program(rt, alloc, &[], &mut source, &mut StdoutSink::over(writer)) {
        Ok(ran) => ran.status == status,
        Err(_) => false,
    }
}

/// The number of the first row of which something else comes, counted from 1.
fn first_wrong<R: Threads + Wait + Copy + Send + 'static>(rt: &R, alloc: Global) -> Option<u32> {
    for (row, number) in STREAMS.lines().zip(1u32..) {
        if !is_right(rt, alloc, row, number_at(row, 1)) {
            return Some(number);
        }
    }
    None
}

/// The first call of a reader of single bytes whose failure is no read fault.
fn first_wrong_read<R: Threads + Wait + Copy + Send + 'static>(
    rt: &R,
    alloc: Global,
) -> Option<u32> {
    // After 9, 16, 24, 31, 46 and 56 bytes what was read is a script of its own.
    for bad_read in 1..=57 {
        if !is_right(rt, alloc, "1 0 1000 0 0 3 0", bad_read) {
            return Some(bad_read);
        }
    }
    None
}

#[test]
fn adapters_pass_all_bytes_on_up_to_a_failure(rt: HostRuntime) {
    assert_eq!(rt; first_wrong(&rt, rt.alloc()), None);
    assert_eq!(rt; first_wrong_read(&rt, rt.alloc()), None);
}
