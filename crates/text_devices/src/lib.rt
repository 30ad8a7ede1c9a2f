//! # Devices that give and take bytes
//!
//! What it is: what a text comes from and goes to. A device may fail, moves as many bytes as it
//! likes, and need not tell which. No handle of the machine is used.
//!
//! The parts: `Source` and `Sink` (devices that may fail), `ListSource`, `ListSink`, `SteadySource`
//! and `SteadySink` (devices in memory), `read_whole` (all that a source has left).
//!
//! What is proved: a whole input is read, up to one byte past the limit. A device's failure is
//! answered only where its count of faults has risen, and after a success that count stands where it
//! stood. A device in memory fails at the listed calls, and where its room ends, and nowhere else.
//!
//! What is only tested or not said: that memory suffices, and where one piece ends and the next
//! begins. The tests stand in `run_trials`.
#![tactic(auto)]

mod devices;
mod list_devices;
mod reading;
mod steady_devices;

pub use devices::{Failed, PIECE, Sink, Source};
pub use list_devices::{ListSink, ListSource};
pub use reading::{ReadError, read_whole};
pub use steady_devices::{SteadySink, SteadySource};
