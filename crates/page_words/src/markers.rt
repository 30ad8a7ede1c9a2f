// A marker's seat of the words, with the view of them that contracts see, and the calls on words and
// seat. Each of these reads one word, or sets a bit of one.

ghost use Rattle.std.specs.Prelude.{◌≡◌, ℕ, ◌<◌, ◌==◌, not, true, false, None, Some};
ghost use Rattle.marker_core.specs.Bodies.{holds};
ghost use Rattle.marker_core.specs.Layout as layout;
ghost use Rattle.marker_core.specs.Layout.{bitmap_at};
ghost use Rattle.marker_core.specs.MarkerFacts.{IsMarkerOk, IsObjectHeader, MarkerMayFind};
ghost use Rattle.marker_core.specs.MarkerSeats.{marker_wants_word, marker_wants_mark};
ghost use Rattle.marker_core.specs.SeatSteps.{is_grey};
ghost use Rattle.page_words.specs.Heaps.{IsCount};
ghost use Rattle.page_words.specs.MarkerRule.{IsMarkerStepOf};
ghost use Rattle.page_words.specs.Markers.{marker_side, with_marker, start_read, header_read};
ghost use Rattle.page_words.specs.Markers.{claimed_as, field_read, marked_as, stop_read};
ghost use Rattle.page_words.specs.Markers.{IsReferenceWithin};

use crate::marker_views::NextMarker;
use crate::marking::has_mark;
use crate::views::Views;
use crate::words::{BLOCK_WORDS, Words};
use atomic_table::Seat;
use marker_core::{
    bits_are_steps, claims_as_are_steps, fields_are_steps, looks_are_steps, markers_are_ok,
    marks_as_are_steps, polls_are_steps,
};
use object_headers::with_traced;
use std::marker::{Brand, Model};

/// The bit of a header's mark.
const MARK: u64 = 2;

/// The right of one marker to read the words and to mark and trace objects. It goes to the marker's
/// thread, and comes back to the mutator's to be joined. The calls come in this order:
///
/// | the seat has | calls, and what they make of it |
/// |---|---|
/// | no more than a number | `is_start`: where it is the place of an object, the seat knows it |
/// | a place that it knows | `header`: the header word |
/// | a header, read last, with the mark and without the traced bit, and nothing in hand | `claim_as`: where it is still the header, the object is in hand |
/// | an object in hand | `read` of each strong word and of each pair's key, by offset |
/// | a target in hand | `mark_as`: the hand moves on to the next strong word or pair |
/// | a key in hand | `header` of it: where it is marked, `read` of the pair's value comes next; else the pair is noted, and the hand moves on |
///
/// `stopped` may come at any time.
#[derive(Drop)]
pub struct MarkerSeat {
    pub(crate) seat: Seat<(), Views>,
}

impl Model for MarkerSeat {
    ghost use Rattle.page_words.specs.Markers.{MarkerSeatView};

    ghost Value = { MarkerSeatView };

    ghost use Rattle.page_words.specs.MarkerRule.{IsMarker, marker_seat_view};

    ghost view = { λ s. marker_seat_view s.seat.table_id s.seat.me.0 };

    ghost invariant = { λ s. IsMarker s.seat.me };
}

impl MarkerSeat {
    /// What is true of every marker's view: what it knows, has marked or traced are places in the
    /// heap, and what is in its hand is as the step machine has it. Whoever calls this has the law.
    /// It reads nothing.
    pub fn places_are_within(&self)
        ensures view { IsMarkerOk (marker_side self.now) }
        ensures count { IsCount self.now.count }
        ensures out { self.now.spent ≡ false }
    {
        markers_are_ok();
        let _seat = &self.seat;
    }
}

impl Words {
    /// Whether an object starts at an address. Where one does, the seat knows its place.
    pub fn is_start(&self, seat: &mut MarkerSeat, a: u32) -> bool
        requires heap { seat.old.heap ≡ self.now }
        requires address { a < seat.old.count }
        ensures known { holds seat.old.known a ≡ true → result ≡ true }
        ensures view { seat.new ≡ start_read seat.old a result }
    {
        bits_are_steps();
        let found = self.start_bits_at::<Brand>(seat, a);
        (found >> (a % BLOCK_WORDS)) % 2 == 1
    }

    fn start_bits_at<N: NextMarker>(&self, seat: &mut MarkerSeat, a: u32) -> u64
        requires heap { seat.old.heap ≡ self.now }
        requires address { a < seat.old.count }
        requires step { IsMarkerStepOf seat.old (bitmap_at seat.old.count a) (λ n. n) N.next }
        ensures word { MarkerMayFind (marker_side seat.old) (bitmap_at seat.old.count a) result }
        ensures view { seat.new ≡ with_marker seat.old (N.next result) }
    {
        self.look_at::<N>(seat, self.count + a / BLOCK_WORDS)
    }

    /// The header word of an object.
    pub fn header(&self, seat: &mut MarkerSeat, a: u32) -> u64
        requires heap { seat.old.heap ≡ self.now }
        requires known { holds seat.old.known a ≡ true }
        ensures word { IsObjectHeader (marker_side seat.old) a result }
        ensures done { holds seat.old.done a ≡ true → layout.has_traced result ≡ true }
        ensures view { seat.new ≡ header_read seat.old a result }
    {
        looks_are_steps();
        seat.places_are_within();
        self.look_at::<Brand>(seat, a)
    }

    /// Claims a marked object for tracing. `header` is its header word, as the seat read it last, with
    /// the mark and without the traced bit. True where the object still has it; this call has then set
    /// the traced bit, and the object is in hand.
    pub fn claim_as(&self, seat: &mut MarkerSeat, a: u32, header: u64) -> bool
        requires heap { seat.old.heap ≡ self.now }
        requires known { holds seat.old.known a ≡ true }
        requires hand { seat.old.hand ≡ None }
        requires last { seat.old.last ≡ Some (a, header) }
        requires grey { is_grey header ≡ true }
        ensures fresh { result ≡ true → holds seat.old.traced a ≡ false }
        ensures view { (found : ℕ) × IsObjectHeader (marker_side seat.old) a found
            × (result ≡ (found == header)) × (seat.new ≡ claimed_as seat.old a header found) }
    {
        claims_as_are_steps();
        seat.places_are_within();
        // Nothing comes between test and write: of all that claim an object one alone finds the word
        // without the traced bit.
        self.change_at::<Brand>(seat, a, header, with_traced(header, true)) == header
    }

    /// The word that the hand wants: a strong word, a key, or a pair's value. What it names is known
    /// to the seat from then on, and in hand.
    pub fn read(&self, seat: &mut MarkerSeat, a: u32) -> u64
        requires heap { seat.old.heap ≡ self.now }
        requires wanted { marker_wants_word (marker_side seat.old) a ≡ true }
        ensures word { IsReferenceWithin seat.old.count result }
        ensures view { seat.new ≡ field_read seat.old result }
    {
        fields_are_steps();
        seat.places_are_within();
        self.look_at::<Brand>(seat, a)
    }

    /// Marks the target in hand, and the hand moves on. True where this call set the mark.
    pub fn mark_as(&self, seat: &mut MarkerSeat, a: u32) -> bool
        requires heap { seat.old.heap ≡ self.now }
        requires wanted { marker_wants_mark (marker_side seat.old) a ≡ true }
        ensures fresh { result ≡ true → holds seat.old.marked a ≡ false }
        ensures view { seat.new ≡ marked_as seat.old a (not result) }
    {
        marks_as_are_steps();
        seat.places_are_within();
        let found = self.add_bits_at::<Brand>(seat, a, MARK);
        !has_mark(found)
    }

    /// Whether the stop word is 1, so that markers are to stop. It stays so until the seat is joined.
    pub fn stopped(&self, seat: &mut MarkerSeat) -> bool
        requires heap { seat.old.heap ≡ self.now }
        ensures halted { seat.old.halted ≡ true → result ≡ true }
        ensures view { seat.new ≡ stop_read seat.old result }
    {
        polls_are_steps();
        let at = self.count + self.count / BLOCK_WORDS;
        self.look_at::<Brand>(seat, at) == 1
    }
}
