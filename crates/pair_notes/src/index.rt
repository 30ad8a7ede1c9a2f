// Which notes are under a key: a tree over the key's bits, lowest first, with a chain of the notes
// that share a key. It is a hint: what it leaves out is found by going over all notes. So clauses say
// of it only which keys were put in, and that what is told first has the key; a test counts its steps.

ghost use Rattle.std.specs.Prelude.{◌≡◌, []};
ghost use Rattle.pair_notes.specs.Keys.{keys_of, with_key, IsUnder};

use std::alloc::Global;

/// No note.
const NONE: u32 = u32::MAX;

/// A tree is no deeper than a key has bits.
const KEY_BITS: u32 = 32;

/// A note in the tree. A note whose key stands in the tree already hangs on that one's chain, on
/// which the latest comes first.
#[derive(Clone, Copy, Drop)]
struct Entry {
    key: u32,
    zero: u32,
    one: u32,
    older: u32,
}

/// One entry a note, of which the first so many are in the tree.
#[derive(Drop)]
pub struct Index {
    entries: Vec<Entry>,
    root: u32,
}

impl Index {
    /// Nothing is in the tree.
    pub fn new(alloc: Global) -> Index
        ensures { keys_of result ≡ [] }
    {
        Index {
            entries: Vec::new(alloc),
            root: NONE,
        }
    }

    /// Takes the memory of the entry with a number. False where it is wanting.
    pub fn make_room(&mut self, i: usize) -> bool {
        i < self.entries.len() || self.entries.push(unlinked(0)).is_ok()
    }

    /// Empties the tree.
    pub fn begin(&mut self)
        ensures { keys_of self.new ≡ keys_of self.old }
    {
        self.root = NONE;
    }

    /// Puts the note with a number under a key.
    pub fn link(&mut self, i: usize, key: u32)
        ensures { keys_of self.new ≡ with_key (keys_of self.old) i key }
    {
        if i >= self.entries.len() || i >= NONE as usize {
            return;
        }
        self.entries[i] = unlinked(key);
        if self.root == NONE {
            self.root = i as u32;
        } else {
            self.link_below(i as u32, key);
        }
    }

    /// Puts an entry into a tree that isn't empty.
    fn link_below(&mut self, new: u32, key: u32)
        ensures { keys_of self.new ≡ keys_of self.old }
    {
        let mut at = self.root;
        for bit in 0..KEY_BITS {
            let here = at as usize;
            if here >= self.entries.len() {
                return;
            }
            if self.entries[here].key == key {
                self.hang(here, new);
                return;
            }
            let next = self.entries[here].child(key, bit);
            if next == NONE {
                self.entries[here].set_child(key, bit, new);
                return;
            }
            at = next;
        }
    }

    /// Hangs an entry on the chain of another.
    fn hang(&mut self, first: usize, new: u32)
        ensures { keys_of self.new ≡ keys_of self.old }
    {
        if first < self.entries.len() && (new as usize) < self.entries.len() {
            self.entries[new as usize].older = self.entries[first].older;
            self.entries[first].older = new;
        }
    }

    /// The first note under a key; a number past all notes where there is none.
    pub fn first_under(&self, key: u32) -> usize
        ensures { IsUnder self.now key result }
    {
        let mut at = self.root;
        for bit in 0..KEY_BITS {
            let here = at as usize;
            if here >= self.entries.len() || self.entries[here].key == key {
                return here;
            }
            at = self.entries[here].child(key, bit);
        }
        usize::MAX
    }

    /// The note that comes after another under the same key; a number past all notes where there is
    /// none.
    pub fn after(&self, i: usize) -> usize {
        if i < self.entries.len() {
            self.entries[i].older as usize
        } else {
            NONE as usize
        }
    }
}

impl Entry {
    /// The entry below, on the side of a bit of the key.
    fn child(&self, key: u32, bit: u32) -> u32 {
        if key.wrapping_shr(bit) & 1 == 0 {
            self.zero
        } else {
            self.one
        }
    }

    fn set_child(&mut self, key: u32, bit: u32, below: u32)
        ensures { self.new.key ≡ self.old.key }
    {
        if key.wrapping_shr(bit) & 1 == 0 {
            self.zero = below;
        } else {
            self.one = below;
        }
    }
}

/// An entry that no other one is below of.
fn unlinked(key: u32) -> Entry
    ensures { result.key ≡ key }
{
    Entry {
        key,
        zero: NONE,
        one: NONE,
        older: NONE,
    }
}
