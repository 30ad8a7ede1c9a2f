// What a thread begins and ends with, and what is known of its end.

ghost use Rattle.std.specs.Prelude.{◌≡◌};
ghost use Rattle.thread_queues.specs.Endings.{HasRun};

use crate::queue::Queue;
use crate::working::OwnPasses;
use std::marker::Model;
use std::snapshot::Snapshot;
use std::thread::Promise;

/// What a thread begins with.
#[derive(Drop)]
pub(crate) struct Begun {
    pub(crate) queue: Queue,
    pub(crate) own: OwnPasses,
}

/// What a thread ends with.
#[derive(Drop)]
pub(crate) struct Ended {
    pub(crate) queue: Queue,
    pub(crate) own: OwnPasses,
}

/// The end of a thread that began so.
#[derive(Drop)]
pub(crate) struct EndOf(pub(crate) Snapshot<Begun>);

impl Promise<Ended> for EndOf {
    ghost kept_by = { λ p r. HasRun p.0.value r };
}

/// The end of a thread whose orders the caller did.
#[derive(Drop)]
pub(crate) struct InPlace {
    begun: Snapshot<Begun>,
    ended: Ended,
}

impl Model for InPlace {
    ghost use Rattle.thread_queues.specs.declared.endings.Begun.{Begun};
    ghost use Rattle.thread_queues.specs.Endings.{HasRun};

    ghost Value = { Begun };

    ghost view = { λ p. p.begun.value };

    ghost invariant = { λ p. HasRun p.begun.value p.ended };
}

impl InPlace {
    pub(crate) fn new(begun: Snapshot<Begun>, ended: Ended) -> InPlace
        requires { HasRun begun.value ended }
        ensures { result ≡ begun.value }
    {
        InPlace { begun, ended }
    }

    /// What it ended with.
    pub(crate) fn into_end(self) -> Ended
        ensures { HasRun self result }
    {
        let InPlace { begun: _, ended } = self;
        ended
    }
}
