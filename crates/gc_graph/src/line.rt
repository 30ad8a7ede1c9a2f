// The lines of a report.

use crate::region::{Entry, Reply};

/// Why a command was refused. Where several hold, the first of this list is answered.
#[derive(Clone, Copy, Drop)]
pub enum Refusal {
    /// The phase doesn't allow the command.
    Phase,
    /// The slot whose object is asked for is null.
    Null,
    /// The object has no field, or no word, of that number.
    Field,
    /// The field, or the stack word, is of another kind.
    Kind,
    /// The stack is full, or a precise pause found words on it.
    Stack,
    /// The stack has no such word.
    Empty,
}

/// One line of a report. `k` is a node, `a` an address in words, `c` a callback or a cursor, `d` a
/// weak callback, `j` a thread, `m` threads, `n` objects, `u` words and `g` pages. `t` is a type, or
/// in `Step` how many objects were traced; in `Word` `n` is the word. The totals that a thread saw
/// have the number `o` of the commands before, and `f` finalisations.
#[derive(Clone, Copy, Drop)]
pub enum Line {
    TypeLine {
        t: u32,
    },
    Placed {
        k: u32,
        a: u32,
    },
    Full,
    Memory,
    Refused(Refusal),
    Fine,
    Node {
        k: u32,
    },
    Null,
    Word {
        n: u64,
    },
    Started,
    Step {
        t: u32,
        done: bool,
    },
    Pause {
        kept: u32,
        dead: u32,
        crew: u32,
        traced: u32,
        walked: bool,
    },
    WeakCall {
        k: u32,
        d: u32,
    },
    Prefinalise {
        k: u32,
        c: u32,
    },
    Finalise {
        k: u32,
    },
    Swept {
        c: u32,
    },
    Objects {
        n: u32,
        u: u32,
        g: u32,
    },
    Queued,
    Going {
        m: u32,
    },
    Reply {
        j: u32,
        reply: Reply,
    },
    ReplyTotals {
        j: u32,
        o: u64,
        n: u64,
        u: u64,
        f: u64,
    },
    Entry(Entry),
    Joined {
        m: u32,
    },
    End {
        n: u32,
        u: u32,
        g: u32,
    },
    /// Commands, pauses, objects, words, finalisations, and outcomes that were full.
    Summary {
        c: u64,
        y: u64,
        n: u64,
        u: u64,
        f: u64,
        full: u64,
    },
}
