// How a run of the program ends.

ghost use Rattle.std.specs.Prelude.{◌≡◌, Some, OnOk};
ghost use Rattle.std.specs.Io.KnownBytes.{Appends, Keeps};
ghost use Rattle.script_run.specs.Statuses.{exit_status_of, message_of, error_text_of};

use std::io::Write;
use std::{fmt, io};

/// How a run ended, and with which exit status.
#[derive(Clone, Copy, Debug, PartialEq, Eq, Drop)]
pub enum Status {
    Done,
    TooLong,
    Script { line: u32, reason: u32 },
    ReadFault,
    WriteFault,
    NoMemory,
    Usage,
}

impl Status {
    pub fn exit_status(self) -> u8
        ensures { result ≡ exit_status_of self }
    {
        match self {
            Status::Done => 0,
            Status::TooLong | Status::Script { .. } => 2,
            Status::ReadFault => 3,
            Status::WriteFault => 4,
            Status::NoMemory => 5,
            Status::Usage => 6,
        }
    }
}

impl fmt::Display for Status {
    ghost output = { λ s. Some (message_of s) };

    fn fmt<W: fmt::Write>(&self, f: &mut fmt::Formatter<W>) -> fmt::Result {
        match *self {
            Status::Done => f.write_str("done"),
            Status::TooLong => f.write_str("too long"),
            Status::Script { line, reason } => write!(f, "script line {line} reason {reason}"),
            Status::ReadFault => f.write_str("read fault"),
            Status::WriteFault => f.write_str("write fault"),
            Status::NoMemory => f.write_str("no memory"),
            Status::Usage => f.write_str("usage"),
        }
    }
}

/// How the program ends: with which exit status, and whether standard error took the message.
#[derive(Drop)]
pub struct Ending {
    pub exit_status: u8,
    pub told: io::Result<()>,
}

/// Tells standard error why a run is not done; of a run that is done it says nothing.
pub fn end<W: Write>(status: Status, errors: &mut W) -> Ending
    ensures exit_status { result.exit_status ≡ exit_status_of status }
    ensures done { status ≡ Status.Done → Keeps (W.contents errors.old) (W.contents errors.new) }
    ensures told { OnOk result.told
        (Appends (W.contents errors.old) (W.contents errors.new) (error_text_of status)) }
{
    let told = match status {
        Status::Done => Ok(()),
        _ => writeln!(errors, "cppgc_main: {status}"),
    };
    Ending {
        exit_status: status.exit_status(),
        told,
    }
}
