// The devices in memory, and text that is held back on its way to one. Expected values are by hand.

ghost use Rattle.std.specs.Prelude.{◌≤◌};

use gc_graph::Line;
use heap_script::{
    ListSink, ListSource, NoMemory, Pieces, ReadError, Source, SteadySink, SteadySource,
    print_line, read_whole,
};
use std::alloc::Global;

/// Text that is held back, and a sink that it goes to.
#[derive(Drop)]
pub(crate) struct Printer {
    pub(crate) pieces: Pieces,
    pub(crate) sink: ListSink,
}

/// A printer whose sink has so much room, takes at most so many bytes a call, and fails at one call,
/// or at none where its number is 0.
pub(crate) fn printer_with(
    alloc: Global,
    most: usize,
    bad: u32,
    room: usize,
) -> Result<Printer, NoMemory>
    requires { 1 ≤ most }
{
    Ok(Printer {
        pieces: Pieces::new(alloc)?,
        sink: sink_with(alloc, most, bad, room)?,
    })
}

fn sink_with(alloc: Global, most: usize, bad: u32, room: usize) -> Result<ListSink, NoMemory>
    requires { 1 ≤ most }
{
    let mut sink = ListSink::new(alloc, most, Vec::from_slice(alloc, &[bad])?);
    sink.reserve(room)?;
    Ok(sink)
}

/// Whether these bytes come, up to the limit and one more.
fn gives<S: Source>(alloc: Global, source: &mut S, limit: usize, wanted: &[u8]) -> bool
    requires { limit ≤ 1000 }
{
    match read_whole(alloc, source, limit) {
        Ok(bytes) => bytes.as_slice() == wanted,
        Err(_) => false,
    }
}

/// A source of six bytes that gives at most four a call, and fails at the second one.
fn source_that_fails(alloc: Global) -> Result<ListSource, NoMemory> {
    let bytes = Vec::from_slice(alloc, b"abcdef")?;
    Ok(ListSource::new(bytes, 4, Vec::from_slice(alloc, &[2])?))
}

/// Whether a read fails at its second call, and the rest comes at the next read.
fn fails_once(alloc: Global) -> bool {
    match source_that_fails(alloc) {
        Ok(mut source) => {
            matches!(read_whole(alloc, &mut source, 100), Err(ReadError::Fault))
                && gives(alloc, &mut source, 100, b"ef")
        }
        Err(_) => false,
    }
}

fn gives_one_more(alloc: Global) -> bool {
    match Vec::from_slice(alloc, b"abc") {
        Ok(bytes) => gives(alloc, &mut SteadySource::new(bytes), 1, b"ab"),
        Err(_) => false,
    }
}

#[test]
fn devices_fail_where_they_are_told(rt: HostRuntime) {
    assert!(rt; fails_once(rt.alloc()) && gives_one_more(rt.alloc()));
}

impl Printer {
    /// Whether the line is held back, and the sink has these bytes once it is handed down, which
    /// fails or doesn't.
    fn leaves(&mut self, line: &Line, fails: bool, wanted: &[u8]) -> bool {
        let before = self.sink.bytes().len();
        self.pieces.print(line, &mut self.sink).is_ok()
            && self.sink.bytes().len() == before
            && self.pieces.hand_down(&mut self.sink).is_err() == fails
            && self.sink.bytes() == wanted
    }

    // There is room for two lines, and the second write fails.
    fn goes_on(&mut self) -> bool {
        self.leaves(&Line::Null, true, b"null")
            && self.leaves(&Line::Fine, false, b"null\nok\n")
            && self.leaves(&Line::Full, true, b"null\nok\n")
            && self.pieces.hand_down(&mut SteadySink::new()).is_ok()
    }
}

fn held_text_goes_on(alloc: Global) -> bool {
    match printer_with(alloc, 4, 2, 8) {
        Ok(mut printer) => printer.goes_on(),
        Err(_) => false,
    }
}

#[test]
fn held_text_goes_on_after_a_failed_write(rt: HostRuntime) {
    assert!(rt; held_text_goes_on(rt.alloc()));
}

fn is_cut(alloc: Global) -> bool {
    match sink_with(alloc, 2, 3, 8) {
        Ok(mut sink) => print_line(&Line::Null, &mut sink).is_err()
            && sink.bytes() == b"null".as_slice(),
        Err(_) => false,
    }
}

#[test]
fn line_without_room_is_cut(rt: HostRuntime) {
    assert!(rt; is_cut(rt.alloc()));
}
