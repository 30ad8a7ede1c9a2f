// Devices in memory that never fail.

ghost use Rattle.std.specs.Prelude.{◌≡◌, ◌<◌, ◌≤◌, length, min, Some, None, Ok, IfOk};
ghost use Rattle.text_devices.specs.Causes.{FailsByFault};
ghost use Rattle.text_devices.specs.Devices.{Takes, Appends};

use super::devices::{Failed, Sink, Source};
use std::marker::Model;

/// Bytes of a list, whole.
#[derive(Drop)]
pub struct SteadySource {
    bytes: Vec<u8>,
    at: usize,
}

impl Model for SteadySource {
    ghost use Rattle.std.specs.Prelude.{ℕ, ◌≤◌, List, drop, length};

    ghost Value = { List ℕ };

    // the bytes still to come
    ghost view = { λ s. drop s.at s.bytes.items };

    ghost invariant = { λ s. s.at ≤ length s.bytes.items };
}

impl SteadySource {
    /// All bytes are still to come.
    pub fn new(bytes: Vec<u8>) -> SteadySource
        ensures { result ≡ bytes.items }
    {
        SteadySource { bytes, at: 0 }
    }
}

impl Source for SteadySource {
    ghost left = { λ it. Some it };

    ghost faults = { λ _. 0 };

    fn read(&mut self, buffer: &mut [u8]) -> Result<usize, Failed>
        requires { 0 < length buffer.old }
        ensures bound { IfOk result (λ n. n ≤ length buffer.new) }
        ensures bytes { IfOk result (λ n. Takes (Some self.old) (Some self.new) buffer.new n) }
        ensures cause { FailsByFault 0 0 result }
        ensures answer { result ≡ Ok (min (length buffer.old) (length self.old)) }
    {
        let rest = &self.bytes[self.at..];
        let count = buffer.len().min(rest.len());
        buffer[..count].copy_from_slice(&rest[..count]);
        self.at += count;
        Ok(count)
    }
}

/// Drops what it takes.
#[derive(Drop)]
pub struct SteadySink;

impl SteadySink {
    /// A sink that takes each piece whole.
    pub fn new() -> SteadySink {
        SteadySink
    }
}

impl Sink for SteadySink {
    ghost written = { λ _. None };

    ghost faults = { λ _. 0 };

    fn write(&mut self, piece: &[u8]) -> Result<usize, Failed>
        requires { 0 < length piece.now }
        ensures bytes { Appends None None piece.now result }
        ensures cause { FailsByFault 0 0 result }
        ensures answer { result ≡ Ok (length piece.now) }
    {
        Ok(piece.len())
    }
}
