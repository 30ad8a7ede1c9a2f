// Why a word is loaded. All of it is for contracts alone.

ghost use Rattle.marker_core.specs.declared.states.Why.{Why};

/// Why a word is loaded, which contracts alone see.
pub trait Reason {
    ghost why: { Why };
}

/// To read it.
pub struct Reading;

impl Reason for Reading {
    ghost use Rattle.marker_core.specs.declared.states.Why.TheVariants.{Read};

    ghost why = { Read };
}

/// To keep the object whose header it is, with all that it reaches, while marking goes on.
pub struct WeakRead;

impl Reason for WeakRead {
    ghost use Rattle.marker_core.specs.declared.states.Why.TheVariants.{Weak};

    ghost why = { Weak };
}

/// To trace the object in hand.
pub struct Tracing;

impl Reason for Tracing {
    ghost use Rattle.marker_core.specs.declared.states.Why.TheVariants.{Trace};

    ghost why = { Trace };
}
