// The commands of a script.

/// Which words of the stack count as roots in a pause: none, or all that point into an object
/// (`EmbedderStackState`, `include/cppgc/common.h`).
#[derive(Clone, Copy, Drop)]
pub enum Want {
    Precise,
    Conservative,
}

/// What a thread of the script is to do with the region's slots, which are below 32
/// (`include/cppgc/cross-thread-persistent.h`).
///
/// | order | line | |
/// |---|---|---|
/// | `Copy` | `at j copy x y` | slot y gets what slot x holds, with its strength |
/// | `Clear` | `at j clear x` | slot x becomes null |
/// | `Weaken` | `at j weaken x` | a strong slot x becomes weak |
/// | `Upgrade` | `at j upgrade x y` | slot y becomes strong for the node of slot x |
/// | `Totals` | `at j totals` | the heap's published totals are read |
#[derive(Clone, Copy, Drop)]
pub enum Order {
    Copy { from: u32, into: u32 },
    Clear { slot: u32 },
    Weaken { slot: u32 },
    Upgrade { from: u32, into: u32 },
    Totals,
}

/// One line of a script. A strong slot (p, q, k, v) is below 256, a weak slot (w) below 64, a
/// region slot (x) below 32, a type (t) is the number of its type line, a field (f) counts from 0,
/// and a thread (j) from 1 to 8.
///
/// | command | line | |
/// |---|---|---|
/// | `New` | `new p t e` | makes an object of type t with e extra words, and puts it into slot p |
/// | `Set` | `set p f q` | field f of slot p's object gets what slot q holds |
/// | `SetNull` | `set p f -` | the field becomes null |
/// | `Pair` | `pair p f k v` | the pair gets what slots k and v hold, its key and its value |
/// | `PairNull` | `pair p f - -` | key and value become null |
/// | `Put` | `put p f n` | the plain word becomes n |
/// | `Word` | `word p f` | reads the plain word |
/// | `Get` | `get p f q` | slot q gets what field f of slot p's object holds |
/// | `Key`, `Val` | `key p f q`, `val p f q` | slot q gets the pair's key, or its value |
/// | `Copy` | `copy p q` | slot q gets what slot p holds |
/// | `Drop` | `drop p` | slot p becomes null |
/// | `Weak` | `weak w p` | weak slot w gets what slot p holds |
/// | `Read` | `read w p` | slot p gets what weak slot w holds |
/// | `Push` | `push p o` | pushes a reference to the word at offset o of slot p's object |
/// | `PushPlain` | `push# n` | pushes the plain word n |
/// | `Pop` | `pop` | takes the last stack word away |
/// | `Peek` | `peek i q` | slot q gets the node of stack word i, the last one being 0 |
/// | `GcStart` | `gc start` | begins a collection |
/// | `GcStep` | `gc step n` | traces up to n objects |
/// | `GcFinish` | `gc finish precise` or `conservative` | the pause of the collection |
/// | `GcNow` | `gc now precise` or `conservative` | a whole collection, whose sweep is left open |
/// | `Sweep`, `SweepAll` | `sweep n`, `sweep all` | sweeps n pages, or all that are left |
/// | `Stat` | `stat` | counts objects, words and pages |
/// | `Export` | `export p x` | region slot x becomes strong for the node of slot p |
/// | `Import` | `import x p` | slot p gets the node of region slot x |
/// | `At` | `at j ORDER` | queues an order for thread j |
/// | `ThreadsGo`, `ThreadsJoin` | `threads go`, `threads join` | starts the threads; waits for them |
#[derive(Clone, Copy, Drop)]
pub enum Command {
    New { p: u32, t: u32, e: u32 },
    Set { p: u32, f: u32, q: u32 },
    SetNull { p: u32, f: u32 },
    Pair { p: u32, f: u32, k: u32, v: u32 },
    PairNull { p: u32, f: u32 },
    Put { p: u32, f: u32, n: u64 },
    Word { p: u32, f: u32 },
    Get { p: u32, f: u32, q: u32 },
    Key { p: u32, f: u32, q: u32 },
    Val { p: u32, f: u32, q: u32 },
    Copy { p: u32, q: u32 },
    Drop { p: u32 },
    Weak { w: u32, p: u32 },
    Read { w: u32, p: u32 },
    Push { p: u32, o: u32 },
    PushPlain { n: u64 },
    Pop,
    Peek { i: u32, q: u32 },
    GcStart,
    GcStep { n: u32 },
    GcFinish { want: Want },
    GcNow { want: Want },
    Sweep { n: u32 },
    SweepAll,
    Stat,
    Export { p: u32, x: u32 },
    Import { x: u32, p: u32 },
    At { j: u32, order: Order },
    ThreadsGo,
    ThreadsJoin,
}
