// What bytes come from and go to.

ghost use Rattle.std.specs.Prelude.{ℕ, ◌<◌, ◌≤◌, List, length, Option, IfOk};
ghost use Rattle.text_devices.specs.Causes.{FailsByFault};
ghost use Rattle.text_devices.specs.Devices.{Takes, Appends};

use thiserror::Error;

/// As many bytes are moved in one piece.
pub const PIECE: usize = 65_536;

/// A device failed.
#[derive(Debug, Drop, Error)]
#[error("a device failed")]
pub struct Failed;

/// Bytes that come in pieces.
pub trait Source {
    /// The bytes still to come, where it tells them.
    ghost left: { Self → Option (List ℕ) };

    /// How often it has failed.
    ghost faults: { Self → ℕ };

    /// Moves bytes to the front of the buffer. None of them is the end.
    fn read(&mut self, buffer: &mut [u8]) -> Result<usize, Failed>
        requires { 0 < length buffer.old }
        ensures bound { IfOk result (λ n. n ≤ length buffer.new) }
        ensures bytes { IfOk result (λ n. Takes (left self.old) (left self.new) buffer.new n) }
        ensures cause { FailsByFault (faults self.old) (faults self.new) result };
}

/// Bytes that go out in pieces.
pub trait Sink {
    /// The bytes taken so far, where it tells them.
    ghost written: { Self → Option (List ℕ) };

    /// How often it has failed.
    ghost faults: { Self → ℕ };

    /// Takes bytes from the front of the piece, one at least.
    fn write(&mut self, piece: &[u8]) -> Result<usize, Failed>
        requires { 0 < length piece.now }
        ensures bytes { Appends (written self.old) (written self.new) piece.now result }
        ensures cause { FailsByFault (faults self.old) (faults self.new) result };
}
