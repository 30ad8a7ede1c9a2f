// What commands take of the region's history (`include/cppgc/cross-thread-persistent.h`).

ghost use Rattle.std.specs.Prelude.{◌≡◌};
ghost use Rattle.heap_cycle.specs.Changes.{with_taken};

use crate::parts::Parts;
use crate::states::{self, Moments};
use ghost_values::GhostValue;

impl Parts {
    /// What was taken of the region's history since this moment is taken of the state too. Contracts
    /// alone see it.
    pub fn take_since(&mut self, before: &GhostValue<Moments>)
        ensures { self.new ≡ record self.old {
          cycle = record self.old.cycle {
            rest = with_taken before.now.value self.old.region.taken self.old.cycle.rest;
          };
        } }
    {
        let rest = states::taken(self, before);
        self.cycle.take(rest);
    }
}
