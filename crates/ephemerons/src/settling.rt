// Settling: a note is looked at, and what it asks for is done.

ghost use Rattle.std.specs.Prelude.{◌≡◌, ◌<◌, true, false, Contains, length};
ghost use Rattle.marker_core.specs.Bodies.{holds};
ghost use Rattle.pair_notes.specs.BodyGraph.{BodyHasPair};
ghost use Rattle.pair_notes.specs.declared.notes.Note.{Note};
ghost use Rattle.pair_notes.specs.Notes.{IsNote, IsNotedIn, group_at, note_at, note_of};
ghost use Rattle.ephemerons.specs.Fixpoint.{NoteIsSettled};
ghost use Rattle.ephemerons.specs.Tracers.{IsReady, Keeps, Advances, Searches, GoesOnward};

use crate::marks::{is_marked, mark_reference, names_marked, word_of};
use crate::tracer::Tracer;
use page_words::Bodywords;
use pair_notes::Note;

impl<'a, 't, B: Bodywords> Tracer<'a, 't, B> {
    /// Settles each note of each group. True where one asked for work.
    pub(crate) fn settle_notes(&mut self) -> bool
        requires ready { IsReady B.heap self.old }
        ensures keeps { Keeps B.heap self.old self.new }
        ensures looks { Searches self.old self.new result }
        ensures settled { result ≡ false → (note : Note) → IsNotedIn self.new.groups.now note
            → NoteIsSettled self.old.types.now self.new.seat.now note }
        ensures looked { GoesOnward self.old self.new }
    {
        let mut found = false;
        for i in 0..self.groups.len() {
            let more = self.settle_group(i);
            found = found || more;
        }
        found
    }

    /// Settles each note of a group. True where one asked for work.
    fn settle_group(&mut self, i: usize) -> bool
        requires ready { IsReady B.heap self.old }
        requires group { i < length self.old.groups.now }
        ensures keeps { Keeps B.heap self.old self.new }
        ensures looks { Searches self.old self.new result }
        ensures settled { result ≡ false
            → (note : Note) → Contains (group_at self.new.groups.now i).notes note
            → NoteIsSettled self.old.types.now self.new.seat.now note }
        ensures looked { GoesOnward self.old self.new }
    {
        let mut found = false;
        for j in 0..self.groups[i].count() {
            let more = self.settle_at(i, j);
            found = found || more;
        }
        found
    }

    /// Settles the notes that the index tells under a key.
    pub(crate) fn settle_under(&mut self, key: u32)
        requires ready { IsReady B.heap self.old }
        ensures keeps { Keeps B.heap self.old self.new }
        ensures works { Advances self.old self.new }
        ensures looked { GoesOnward self.old self.new }
    {
        for i in 0..self.groups.len() {
            self.settle_chain(i, key);
        }
    }

    /// Settles the notes that the index of a group tells under a key: first the one in the tree, and
    /// then its chain from the latest on, whose numbers fall.
    fn settle_chain(&mut self, i: usize, key: u32)
        requires ready { IsReady B.heap self.old }
        requires group { i < length self.old.groups.now }
        ensures keeps { Keeps B.heap self.old self.new }
        ensures works { Advances self.old self.new }
        ensures looked { GoesOnward self.old self.new }
    {
        let group = &mut self.groups[i];
        group.index_notes(self.space, self.seat);
        let first = group.first_under(key);
        let mut bound = group.count();
        let mut j = group.after(first);
        self.settle_at(i, first);
        while j < bound {
            self.settle_at(i, j);
            bound = j;
            // An element is lent by a slice, and not by a field that borrows one.
            let groups = &mut *self.groups;
            let groups = &*groups;
            j = groups[i].after(j);
        }
    }

    /// Settles the note with a number of a group, where there is one. True where it asked for work.
    fn settle_at(&mut self, i: usize, j: usize) -> bool
        requires ready { IsReady B.heap self.old }
        requires group { i < length self.old.groups.now }
        ensures keeps { Keeps B.heap self.old self.new }
        ensures looks { Searches self.old self.new result }
        ensures settled { result ≡ false → j < length (group_at self.new.groups.now i).notes
            → NoteIsSettled self.old.types.now self.new.seat.now
            (note_at (group_at self.new.groups.now i) j) }
        ensures looked { GoesOnward self.old self.new }
    {
        if j < self.groups[i].count() {
            let note = self.groups[i].at(j);
            self.settle(note)
        } else {
            false
        }
    }

    /// Does what a note asks for: an object is traced, if it is marked and not yet traced; and a
    /// pair's value is marked, if holder and key are. True where that was to be done.
    fn settle(&mut self, note: Note) -> bool
        requires ready { IsReady B.heap self.old }
        requires note { IsNote self.old.types.now self.old.seat.now.bodies note }
        ensures keeps { Keeps B.heap self.old self.new }
        ensures looks { Searches self.old self.new result }
        ensures settled { result ≡ false
            → NoteIsSettled self.old.types.now self.new.seat.now note }
        ensures looked { holds self.old.seat.now.marked note.holder ≡ true
            → GoesOnward self.old self.new }
    {
        if note.word == 0 {
            self.trace_grey(note.holder)
        } else {
            self.settle_pair(note.holder, note.word)
        }
    }

    /// Marks and lists the value of a pair, if holder and key are marked. True where it was not
    /// marked.
    pub(crate) fn settle_pair(&mut self, holder: u32, word: u32) -> bool
        requires ready { IsReady B.heap self.old }
        requires pair { BodyHasPair self.old.types.now self.old.seat.now.bodies holder word }
        ensures keeps { Keeps B.heap self.old self.new }
        ensures looks { Searches self.old self.new result }
        ensures settled { result ≡ false
            → NoteIsSettled self.old.types.now self.new.seat.now (note_of holder word) }
        ensures looked { holds self.old.seat.now.marked holder ≡ true
            → GoesOnward self.old self.new }
    {
        self.seat.bodies_lie_apart();
        if !is_marked(self.space, self.seat, holder) {
            return false;
        }
        let key = word_of(self.space, self.seat, holder, word);
        if !names_marked(self.space, self.seat, key) {
            return false;
        }
        let value = word_of(self.space, self.seat, holder, word + 1);
        mark_reference(self.space, self.seat, self.marking, value)
    }
}
