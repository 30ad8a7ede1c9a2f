// The text of lines, as it is put together.

ghost use Rattle.std.specs.Prelude.{◌≡◌, ℕ, ◌+◌, ◌-◌, ◌<◌, ◌≤◌, List, [], ◌++◌, length, decimal, IfOk};

use arrayvec::ArrayVec;
use gc_graph::NoMemory;
use itoa::{Buffer, write_digits};
use std::alloc::Global;
use std::marker::Model;
use text_devices::PIECE;

/// Text that grows at its end, and takes no memory for it.
pub(crate) trait TextBuffer {
    /// The text so far.
    ghost held: { Self → List ℕ };

    /// How many bytes more have room.
    ghost room: { Self → ℕ };

    fn add(&mut self, piece: &[u8])
        requires { length piece.now ≤ room self.old }
        ensures items { held self.new ≡ held self.old ++ piece.now }
        ensures room { room self.new + length piece.now ≡ room self.old };

    fn add_number(&mut self, number: u32)
        requires { 10 ≤ room self.old }
        ensures items { held self.new ≡ held self.old ++ decimal number }
        ensures room { room self.old ≤ room self.new + 10 };
}

/// Room for one line, which with its end has fewer bytes.
pub(crate) type LineText = ArrayVec<u8, 256>;

impl TextBuffer for LineText {
    ghost held = { λ t. t.items };

    ghost room = { λ t. 256 - length t.items };

    fn add(&mut self, piece: &[u8]) {
        // Its clause says that the length is within the room.
        let _length = self.len();
        match self.try_extend_from_slice(piece) {
            Ok(()) => {}
            Err(_) => unreachable!(),
        }
    }

    fn add_number(&mut self, number: u32) {
        let mut buffer = Buffer::new();
        self.add(buffer.format(number).as_bytes());
    }
}

/// Text of up to one piece, whose memory is taken once. It ends at `end`, and what stands after it in
/// `bytes` counts for nothing.
#[derive(Drop)]
pub(crate) struct PieceText {
    bytes: Vec<u8>,
    end: usize,
}

impl Model for PieceText {
    ghost use Rattle.std.specs.Prelude.{◌≡◌, ℕ, ◌≤◌, List, length, take};

    ghost Value = { List ℕ };

    ghost view = { λ s. take s.end s.bytes.items };

    ghost invariant = { λ s. (s.end ≤ 65536) × (length s.bytes.items ≡ 65536) };
}

impl PieceText {
    pub(crate) fn new(alloc: Global) -> Result<PieceText, NoMemory>
        ensures { IfOk result (λ text. text ≡ []) }
    {
        let mut bytes = Vec::new(alloc);
        match bytes.resize(PIECE, 0) {
            Ok(()) => Ok(PieceText { bytes, end: 0 }),
            Err(_) => Err(NoMemory),
        }
    }

    pub(crate) fn as_slice(&self) -> &[u8]
        ensures value { result.now ≡ self.now }
        ensures few { length self.now ≤ 65536 }
    {
        &self.bytes[..self.end]
    }

    pub(crate) fn clear(&mut self)
        ensures { self.new ≡ [] }
    {
        self.end = 0;
    }
}

impl TextBuffer for PieceText {
    ghost held = { λ t. t };

    ghost room = { λ t. 65536 - length t };

    #[inline(always)]
    fn add(&mut self, piece: &[u8]) {
        let end = self.end + piece.len();
        self.bytes[self.end..end].copy_from_slice(piece);
        self.end = end;
    }

    fn add_number(&mut self, number: u32) {
        let end = self.end + decimal_length(number);
        let _start = write_digits(u64::from(number), &mut self.bytes, end);
        self.end = end;
    }
}

/// How many digits a number has.
#[inline(always)]
fn decimal_length(number: u32) -> usize
    ensures { result ≡ length (decimal number) }
{
    if number < 10_000 {
        return short_length(number);
    }
    if number < 100_000 {
        return 5;
    }
    if number < 1_000_000 {
        return 6;
    }
    if number < 10_000_000 {
        return 7;
    }
    if number < 100_000_000 {
        return 8;
    }
    if number < 1_000_000_000 { 9 } else { 10 }
}

#[inline(always)]
fn short_length(number: u32) -> usize
    requires { number < 10000 }
    ensures { result ≡ length (decimal number) }
{
    if number < 10 {
        return 1;
    }
    if number < 100 {
        return 2;
    }
    if number < 1_000 { 3 } else { 4 }
}

/// A number with what stands before it.
#[inline(always)]
pub(crate) fn add_named<B: TextBuffer>(text: &mut B, name: &[u8], number: u32)
    requires { length name.now + 10 ≤ B.room text.old }
    ensures items { B.held text.new ≡ B.held text.old ++ (name.now ++ decimal number) }
    ensures room { B.room text.old ≤ B.room text.new + length name.now + 10 }
{
    text.add(name);
    text.add_number(number);
}

/// A number of 64 bits with what stands before it.
pub(crate) fn add_wide<B: TextBuffer>(text: &mut B, name: &[u8], number: u64)
    requires { length name.now + 20 ≤ B.room text.old }
    ensures items { B.held text.new ≡ B.held text.old ++ (name.now ++ decimal number) }
    ensures room { B.room text.old ≤ B.room text.new + length name.now + 20 }
{
    text.add(name);
    let mut buffer = Buffer::new();
    let digits = buffer.format(number);
    text.add(digits.as_bytes());
}
