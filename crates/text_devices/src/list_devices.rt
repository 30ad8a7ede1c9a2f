// Devices in memory that fail at chosen calls.

ghost use Rattle.std.specs.Prelude.{◌≡◌, ◌+◌, ◌==◌, ◌<◌, ◌≤◌, [], length, max};
ghost use Rattle.std.specs.Prelude.{Some, IfOk, OnOk, OnErr};
ghost use Rattle.text_devices.specs.Causes.{FailsByFault};
ghost use Rattle.text_devices.specs.Devices.{Takes, Appends};
ghost use Rattle.std.specs.List.{list_any};
ghost use Rattle.text_devices.specs.ListDevices.{ReadsList, WritesList};

use super::devices::{Failed, Sink, Source};
use gc_graph::NoMemory;
use std::alloc::Global;
use std::marker::Model;

/// Bytes of a list. The calls whose numbers are listed fail, numbered from 1.
#[derive(Drop)]
pub struct ListSource {
    bytes: Vec<u8>,
    at: usize,
    most: usize,
    fail: Vec<u32>,
    calls: u64,
    faults: u64,
}

impl Model for ListSource {
    ghost use Rattle.std.specs.Prelude.{◌≤◌, ◌<◌, drop, length};
    ghost use Rattle.text_devices.specs.ListDevices.{ListSourceState};

    ghost Value = { ListSourceState };

    ghost view = { λ s. record {
      left = drop s.at s.bytes.items;
      most = s.most;
      fail = s.fail.items;
      calls = s.calls;
      faults = s.faults;
    } };

    ghost invariant = { λ s. (0 < s.most) × (s.at ≤ length s.bytes.items) };
}

impl ListSource {
    /// All bytes are still to come, at most `most` of them a call; `fail` lists the calls that
    /// fail.
    pub fn new(bytes: Vec<u8>, most: usize, fail: Vec<u32>) -> ListSource
        requires { 1 ≤ most }
        ensures { result ≡ record {
          left = bytes.items;
          most = most;
          fail = fail.items;
          calls = 0;
          faults = 0;
        } }
    {
        ListSource {
            bytes,
            at: 0,
            most,
            fail,
            calls: 0,
            faults: 0,
        }
    }
}

impl Source for ListSource {
    ghost left = { λ it. Some it.left };

    ghost faults = { λ it. it.faults };

    fn read(&mut self, buffer: &mut [u8]) -> Result<usize, Failed>
        requires { 0 < length buffer.old }
        ensures bound { IfOk result (λ n. n ≤ length buffer.new) }
        ensures bytes { IfOk result (λ n.
            Takes (Some self.old.left) (Some self.new.left) buffer.new n) }
        ensures cause { FailsByFault self.old.faults self.new.faults result }
        ensures answer { ReadsList self.old self.new buffer.old result }
    {
        self.calls = self.calls.saturating_add(1);
        if is_listed(&self.fail, self.calls) {
            self.faults = self.faults.saturating_add(1);
            return Err(Failed);
        }
        let rest = &self.bytes[self.at..];
        let count = buffer.len().min(self.most).min(rest.len());
        buffer[..count].copy_from_slice(&rest[..count]);
        self.at += count;
        Ok(count)
    }
}

/// Keeps what it takes. The calls whose numbers are listed fail, numbered from 1.
#[derive(Drop)]
pub struct ListSink {
    taken: Vec<u8>,
    room: usize,
    most: usize,
    fail: Vec<u32>,
    calls: u64,
    faults: u64,
}

impl Model for ListSink {
    ghost use Rattle.std.specs.Prelude.{◌≤◌, ◌<◌, vec_capacity};
    ghost use Rattle.text_devices.specs.ListDevices.{ListSinkState};

    ghost Value = { ListSinkState };

    ghost view = { λ s. record {
      written = s.taken.items;
      room = s.room;
      most = s.most;
      fail = s.fail.items;
      calls = s.calls;
      faults = s.faults;
    } };

    ghost invariant = { λ s. (0 < s.most) × (s.room ≤ vec_capacity s.taken) };
}

impl ListSink {
    /// Nothing is taken yet, and there is no room. At most `most` bytes go a call; `fail` lists the
    /// calls that fail.
    pub fn new(alloc: Global, most: usize, fail: Vec<u32>) -> ListSink
        requires { 1 ≤ most }
        ensures { result ≡ record {
          written = [];
          room = 0;
          most = most;
          fail = fail.items;
          calls = 0;
          faults = 0;
        } }
    {
        ListSink {
            taken: Vec::new(alloc),
            room: 0,
            most,
            fail,
            calls: 0,
            faults: 0,
        }
    }

    /// Takes room for so many bytes more. Nothing else takes memory.
    pub fn reserve(&mut self, bytes: usize) -> Result<(), NoMemory>
        ensures room { OnOk result (self.new ≡
            record self.old { room = max self.old.room (length self.old.written + bytes) }) }
        ensures refused { OnErr result (self.new ≡ self.old) }
    {
        if self.taken.reserve(bytes).is_err() {
            return Err(NoMemory);
        }
        self.room = self.room.max(self.taken.len() + bytes);
        Ok(())
    }

    /// What it took.
    pub fn bytes(&self) -> &[u8]
        ensures { result.now ≡ self.now.written }
    {
        self.taken.as_slice()
    }
}

impl Sink for ListSink {
    ghost written = { λ it. Some it.written };

    ghost faults = { λ it. it.faults };

    fn write(&mut self, piece: &[u8]) -> Result<usize, Failed>
        requires { 0 < length piece.now }
        ensures bytes { Appends (Some self.old.written) (Some self.new.written) piece.now result }
        ensures cause { FailsByFault self.old.faults self.new.faults result }
        ensures answer { WritesList self.old self.new piece.now result }
    {
        let count = piece.len().min(self.most);
        self.calls = self.calls.saturating_add(1);
        if is_listed(&self.fail, self.calls) || self.room.saturating_sub(self.taken.len()) < count {
            self.faults = self.faults.saturating_add(1);
            return Err(Failed);
        }
        match self.taken.extend_from_slice(&piece[..count]) {
            Ok(()) => Ok(count),
            Err(_) => unreachable!(),
        }
    }
}

fn is_listed(numbers: &[u32], call: u64) -> bool
    ensures { result ≡ list_any (λ number. number == call) numbers.now }
{
    numbers.iter().any(|number| u64::from(*number) == call)
}
