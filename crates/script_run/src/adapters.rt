// Devices over the standard streams. They tell no bytes.

ghost use Rattle.std.specs.Prelude.{◌≡◌, ◌<◌, ◌≤◌, None, length, IfOk};
ghost use Rattle.text_devices.specs.Causes.{FailsByFault};
ghost use Rattle.text_devices.specs.Devices.{Takes, Appends};
ghost use Rattle.script_run.specs.Counting.{CountsFaults};

use heap_script::{Failed, Sink, Source};
use std::io::{Read, Write};

/// What a reader gives.
#[derive(Drop)]
pub struct StdinSource<R: Read> {
    inner: R,
    faults: u64,
}

impl<R: Read> StdinSource<R> {
    pub fn over(inner: R) -> StdinSource<R>
        ensures { result.faults ≡ 0 }
    {
        StdinSource { inner, faults: 0 }
    }
}

impl<R: Read> Source for StdinSource<R> {
    ghost left = { λ s. None };

    ghost faults = { λ s. s.faults };

    fn read(&mut self, buffer: &mut [u8]) -> Result<usize, Failed>
        requires { 0 < length buffer.old }
        ensures bound { IfOk result (λ n. n ≤ length buffer.new) }
        ensures bytes { IfOk result (λ n. Takes None None buffer.new n) }
        ensures cause { FailsByFault self.old.faults self.new.faults result }
        ensures count { CountsFaults self.old.faults self.new.faults result }
    {
        match self.inner.read(buffer) {
            Ok(count) => Ok(count),
            Err(_) => {
                self.faults = self.faults.saturating_add(1);
                Err(Failed)
            }
        }
    }
}

/// What a writer takes. A write that takes nothing counts as a fault.
#[derive(Drop)]
pub struct StdoutSink<W: Write> {
    inner: W,
    faults: u64,
}

impl<W: Write> StdoutSink<W> {
    pub fn over(inner: W) -> StdoutSink<W>
        ensures { result.faults ≡ 0 }
    {
        StdoutSink { inner, faults: 0 }
    }
}

impl<W: Write> Sink for StdoutSink<W> {
    ghost written = { λ s. None };

    ghost faults = { λ s. s.faults };

    fn write(&mut self, piece: &[u8]) -> Result<usize, Failed>
        requires { 0 < length piece.now }
        ensures bytes { Appends None None piece.now result }
        ensures cause { FailsByFault self.old.faults self.new.faults result }
        ensures count { CountsFaults self.old.faults self.new.faults result }
    {
        match self.inner.write(piece) {
            Ok(0) => {}
            Ok(count) => return Ok(count),
            Err(_) => {}
        }
        self.faults = self.faults.saturating_add(1);
        Err(Failed)
    }
}
