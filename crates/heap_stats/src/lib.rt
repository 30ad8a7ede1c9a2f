//! # The published totals
//!
//! What it is: the totals of a heap, which its owner publishes and threads read. It knows nothing of
//! words, heaps or commands.
//!
//! The parts: `Totals`, four numbers; `Board`, which threads share; `Publisher`, with which its one
//! owner publishes; `BoardPass`, with which a thread reads. Inside, `views` has what contracts see of a
//! pass. The next level down is `RuledSeqCell` of `crossbeam_utils`.
//!
//! ```text
//! let (board, mut publisher) = Board::new(alloc)?;
//! let mut pass = board.lend(&mut publisher);
//! board.publish(rt, &mut publisher, totals);
//! let read = board.read(rt, &mut pass);
//! board.take_back(rt, &mut publisher, pass);
//! ```
//!
//! What is proved: the ordinals that are published rise. No read finds totals older than what its pass
//! was lent with or has read. Once a pass is taken back, all that it has read was published, the four
//! numbers of each together. Four zeros count as the first totals. Only `new` may want memory.
//!
//! What is only tested or not said: that a call ends. `publish` waits while a reader has the cell's
//! lock, which a read takes where totals were published during its look. Nothing says that a read finds
//! the totals published last, or that a pass which isn't taken back read what was published.
#![tactic(auto)]

mod board;
mod passes;
mod totals;
mod views;

pub use board::Board;
pub use passes::{BoardPass, Publisher};
pub use totals::Totals;
