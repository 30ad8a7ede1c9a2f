// What a marker of a crew begins and ends with, and what is known of its end.

ghost use Rattle.std.specs.Prelude.{◌≡◌};
ghost use Rattle.marker_crew.specs.Crews.{HasDrained};

use crate::draining::Drained;
use mark_worklist::Share;
use page_words::MarkerSeat;
use pair_notes::Pairs;
use std::marker::Model;
use std::snapshot::Snapshot;
use std::thread::Promise;

/// What a marker begins with.
#[derive(Drop)]
pub(crate) struct Begun {
    pub(crate) seat: MarkerSeat,
    pub(crate) share: Share,
    pub(crate) notes: Pairs,
}

impl Model for Begun {
    ghost use Rattle.marker_crew.specs.Crews.{Marker};

    ghost Value = { Marker };

    ghost view = { λ b. record { seat = b.seat; share = b.share; notes = b.notes } };
}

/// What a marker ends with.
#[derive(Drop)]
pub(crate) struct Ended {
    pub(crate) seat: MarkerSeat,
    pub(crate) share: Share,
    pub(crate) notes: Pairs,
    pub(crate) drained: Drained,
}

impl Model for Ended {
    ghost use Rattle.marker_crew.specs.Crews.{Ending};

    ghost Value = { Ending };

    ghost view = { λ e. record {
      seat = e.seat;
      share = e.share;
      notes = e.notes;
      drained = e.drained;
    } };
}

/// The end of a marker that began so.
#[derive(Drop)]
pub(crate) struct EndOf(pub(crate) Snapshot<Begun>);

impl Promise<Ended> for EndOf {
    ghost kept_by = { λ p r. HasDrained p.0.value r };
}

/// A marker that has drained on the caller's thread.
#[derive(Drop)]
pub(crate) struct InPlace {
    begun: Snapshot<Begun>,
    ended: Ended,
}

impl Model for InPlace {
    ghost use Rattle.marker_crew.specs.Crews.{Marker, HasDrained};

    ghost Value = { Marker };

    ghost view = { λ p. p.begun.value };

    ghost invariant = { λ p. HasDrained p.begun.value p.ended };
}

impl InPlace {
    pub(crate) fn new(begun: Snapshot<Begun>, ended: Ended) -> InPlace
        requires { HasDrained begun.value ended }
        ensures { result ≡ begun.value }
    {
        InPlace { begun, ended }
    }

    /// What it ended with.
    pub(crate) fn into_end(self) -> Ended
        ensures { HasDrained self result }
    {
        let InPlace { begun: _, ended } = self;
        ended
    }
}
