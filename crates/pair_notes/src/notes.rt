// Notes of pairs whose key was not marked yet.

ghost use Rattle.std.specs.Prelude.{◌≡◌, true, false, ◌<◌, ◌≤◌, length, Contains};
ghost use Rattle.mark_worklist.specs.Shares.{last_count};
ghost use Rattle.page_words.specs.Seat.{OnlyLooked};
ghost use Rattle.pair_notes.specs.declared.notes.Note.{Note};
ghost use Rattle.pair_notes.specs.Notes.{IsNote, no_notes, note_at, noted, overflowed, notes_cleared};

use crate::index::Index;
use page_words::{Bodywords, MutatorSeat, Reading};
use std::alloc::Global;
use std::marker::Model;

/// So many keys there can be.
const KEYS: u64 = 1 << 32;

/// A note: of the pair whose key stands at the offset `word` of the object at `holder`, or, where
/// `word` is 0, of the object itself, which may still have to be traced.
#[derive(Clone, Copy, Drop)]
pub struct Note {
    pub holder: u32,
    pub word: u32,
}

/// Notes of one cycle of marking. Whoever traces has a group of its own.
#[derive(Drop)]
pub struct Pairs {
    notes: Vec<Note>,
    overflow: bool,
    refused: u64,
    index: Index,
    indexed: usize,
}

impl Model for Pairs {
    ghost use Rattle.std.specs.Prelude.{◌≤◌};
    ghost use Rattle.mark_worklist.specs.Shares.{last_count};
    ghost use Rattle.pair_notes.specs.Notes.{NotesState};

    ghost Value = { NotesState };

    ghost view = { λ p. record {
      notes = p.notes.items;
      overflow = p.overflow;
      refused = p.refused;
    } };

    ghost invariant = { λ p. p.refused ≤ last_count };
}

impl Pairs {
    /// No notes, and no room for any.
    pub fn new(alloc: Global) -> Pairs
        ensures { result ≡ no_notes }
    {
        Pairs {
            notes: Vec::new(alloc),
            overflow: false,
            refused: 0,
            index: Index::new(alloc),
            indexed: 0,
        }
    }

    /// Notes a pair, or with word 0 an object. False where memory is wanting, which is free.
    pub fn note(&mut self, holder: u32, word: u32) -> bool
        ensures noted { result ≡ true → self.new ≡ noted self.old holder word }
        ensures refused { result ≡ false → self.new ≡ overflowed self.old }
        ensures fits { self.old.refused ≤ last_count }
    {
        let count = self.notes.len();
        let done = self.index.make_room(count) && self.notes.push(Note { holder, word }).is_ok();
        if !done {
            self.overflow = true;
            self.refused = self.refused.saturating_add(1);
        }
        done
    }

    /// Forgets all notes, and that one was refused. The room stays, and so does the count of refused
    /// notes.
    pub fn clear(&mut self)
        ensures { self.new ≡ notes_cleared self.old }
    {
        self.notes.clear();
        self.overflow = false;
    }

    /// Whether a note was refused since the notes were cleared.
    pub fn overflow(&self) -> bool
        ensures { result ≡ self.now.overflow }
    {
        self.overflow
    }

    /// How many notes were refused. It stays at its last value once it is there.
    pub fn refused(&self) -> u64
        ensures { result ≡ self.now.refused }
    {
        self.refused
    }

    /// How many notes there are.
    pub fn count(&self) -> usize
        ensures { result ≡ length self.now.notes }
    {
        self.notes.len()
    }

    pub fn at(&self, i: usize) -> Note
        requires { i < length self.now.notes }
        ensures { result ≡ note_at self.now i }
    {
        self.notes[i]
    }

    /// Empties the index: keys may have changed since the notes were made.
    pub fn begin_index(&mut self)
        ensures { self.new ≡ self.old }
    {
        self.index.begin();
        self.indexed = 0;
    }

    /// Brings the notes that were made since the last call into the index.
    pub fn index_notes<B: Bodywords>(&mut self, words: &B, seat: &mut MutatorSeat)
        requires heap { seat.old.heap ≡ B.heap words.now }
        ensures view { OnlyLooked seat.old seat.new }
        ensures notes { self.new ≡ self.old }
        ensures beside { ((note : Note) → Contains self.old.notes note
            → IsNote seat.old.types seat.old.bodies note) → seat.new ≡ seat.old }
    {
        seat.bodies_lie_apart();
        for i in self.indexed..self.notes.len() {
            let note = self.notes[i];
            let address = note.holder.wrapping_add(note.word);
            if note.word != 0 && address < words.count() {
                let key = words.load::<Reading>(seat, address) % KEYS;
                self.index.link(i, key as u32);
            }
        }
        self.indexed = self.notes.len();
    }

    /// The number of the first note under a key, or a number past all notes.
    pub fn first_under(&self, key: u32) -> usize {
        self.index.first_under(key.wrapping_add(1))
    }

    /// The number of the note after another under its key, or a number past all notes.
    pub fn after(&self, i: usize) -> usize {
        self.index.after(i)
    }
}
