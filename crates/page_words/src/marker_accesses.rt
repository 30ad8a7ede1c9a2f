// One step of the table, as a marker's seat makes it. Whoever calls one of these shows that it is a
// step of the machine, and picks the view that comes after it.

ghost use Rattle.std.specs.Prelude.{◌≡◌, ◌≤◌, bit_or};
ghost use Rattle.marker_core.specs.Layout.{stop_at};
ghost use Rattle.marker_core.specs.MarkerFacts.{MarkerMayFind};
ghost use Rattle.marker_core.specs.SeatLaws.{exchanged};
ghost use Rattle.page_words.specs.MarkerRule.{IsMarkerStepOf};
ghost use Rattle.page_words.specs.Markers.{marker_side, with_marker};

use crate::marker_views::{MarkerFinding, NextMarker};
use crate::markers::MarkerSeat;
use crate::words::Words;
use marker_core::{every_step_keeps, marker_words_may_be_found};

impl Words {
    /// Reads the word at an address.
    pub(crate) fn look_at<N: NextMarker>(&self, seat: &mut MarkerSeat, at: u32) -> u64
        requires heap { seat.old.heap ≡ self.now }
        requires address { at ≤ stop_at seat.old.count }
        requires step { IsMarkerStepOf seat.old at (λ n. n) N.next }
        ensures word { MarkerMayFind (marker_side seat.old) at result }
        ensures view { seat.new ≡ with_marker seat.old (N.next result) }
    {
        marker_words_may_be_found();
        every_step_keeps();
        self.table
            .shared
            .load::<MarkerFinding<N>>(&mut seat.seat, at as usize)
    }

    /// Sets bits of a word, which is answered as it was.
    pub(crate) fn add_bits_at<N: NextMarker>(
        &self,
        seat: &mut MarkerSeat,
        at: u32,
        bits: u64,
    ) -> u64
        requires heap { seat.old.heap ≡ self.now }
        requires address { at ≤ stop_at seat.old.count }
        requires step { IsMarkerStepOf seat.old at (λ n. bit_or n bits) N.next }
        ensures word { MarkerMayFind (marker_side seat.old) at result }
        ensures view { seat.new ≡ with_marker seat.old (N.next result) }
    {
        marker_words_may_be_found();
        every_step_keeps();
        self.table
            .shared
            .fetch_or::<MarkerFinding<N>>(&mut seat.seat, at as usize, bits)
    }

    /// Writes a word where the expected one is found, which is answered as it was.
    pub(crate) fn change_at<N: NextMarker>(
        &self,
        seat: &mut MarkerSeat,
        at: u32,
        expected: u64,
        new: u64,
    ) -> u64
        requires heap { seat.old.heap ≡ self.now }
        requires address { at ≤ stop_at seat.old.count }
        requires step { IsMarkerStepOf seat.old at (exchanged expected new) N.next }
        ensures word { MarkerMayFind (marker_side seat.old) at result }
        ensures view { seat.new ≡ with_marker seat.old (N.next result) }
    {
        marker_words_may_be_found();
        every_step_keeps();
        self.table
            .shared
            .compare_exchange::<MarkerFinding<N>>(&mut seat.seat, at as usize, expected, new)
    }
}
