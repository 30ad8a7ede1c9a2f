// The kinds of step.

use crate::lists::List;
use crate::states::Why;

/// One access to one word of the shared table, or the making or giving back of a marker's view. `a`
/// is an address, `marker` a position among the markers, `w` the word that is written, `header` the
/// header word that is expected. `why` and `roots` are known to contracts alone.
///
/// The first eight are the mutator's, the other eight the markers'.
#[derive(Drop)]
pub enum CoreStep {
    Load { a: u32, why: Why },
    Fill { a: u32, w: u64 },
    Store { a: u32, w: u64 },
    Publish { a: u32 },
    Retract { a: u32 },
    Mark { a: u32 },
    Header { a: u32, claim: bool },
    Stop { on: bool, roots: List<u32> },
    Split,
    Join { marker: u32 },
    Bit { marker: u32, a: u32 },
    Look { marker: u32, a: u32 },
    Claim { marker: u32, a: u32, header: u64 },
    Field { marker: u32, a: u32 },
    MarkerMark { marker: u32, a: u32 },
    Poll { marker: u32 },
}
