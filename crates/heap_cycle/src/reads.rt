// Weak reads: what a weak field, a pair or a weak slot named may be kept from then on, while marking
// goes on (`include/cppgc/persistent.h`, `include/cppgc/member.h`).

ghost use Rattle.std.specs.Prelude.{◌≡◌, MatchOption, IfSome};
ghost use Rattle.gc_graph.specs.May.{weakly_read};
ghost use Rattle.heap_roots.specs.Objects.{IsLiveAt};
ghost use Rattle.heap_cycle.specs.Parts.{setup_of, state_of, AreTied, IsReady};

use crate::parts::Parts;
use crate::states;

/// A weak read gave this place and number, or none.
pub fn read_weakly(parts: &mut Parts, target: Option<(u32, u32)>)
    requires ready { IsReady parts.old }
    requires target { IfSome target (λ t. IsLiveAt parts.old.objects.nodes t.1 t.0) }
    ensures state { MatchOption target (parts.new ≡ parts.old)
        (λ t. state_of parts.new ≡ weakly_read (state_of parts.old) t.1) }
    ensures tied { AreTied parts.new }
    ensures nodes { parts.new.objects.nodes ≡ parts.old.objects.nodes }
    ensures setup { setup_of parts.new ≡ setup_of parts.old }
    ensures grey { parts.new.objects.grey ≡ parts.old.objects.grey }
    ensures others { parts.new ≡ record parts.old {
      objects = parts.new.objects;
      cycle = record parts.old.cycle { rest = parts.new.cycle.rest };
    } }
    ensures ordinal { parts.new.cycle.rest.ordinal ≡ parts.old.cycle.rest.ordinal }
{
    if let Some((place, number)) = target {
        let rest = states::read(parts, number);
        parts.objects.read_weakly(place);
        parts.cycle.take(rest);
    }
}
