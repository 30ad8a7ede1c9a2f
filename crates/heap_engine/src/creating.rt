// New objects (`include/cppgc/allocation.h`).

ghost use Rattle.std.specs.Prelude.{◌≡◌, ◌≢◌, ◌⊎◌, ◌*◌, ◌<◌, ◌≤◌, false, []};
ghost use Rattle.std.specs.Prelude.{length, IfOk, OnOk, OnErr};
ghost use Rattle.gc_graph.specs.declared.command.Command.TheVariants as C;
ghost use Rattle.gc_graph.specs.State.{type_at};
ghost use Rattle.gc_graph.specs.Outcomes.{answered};
ghost use Rattle.gc_graph.specs.ObjectSteps.{StepNew};
ghost use Rattle.heap_cycle.specs.Pages.{word_count};
ghost use Rattle.heap_cycle.specs.Nodes.{most_nodes};
ghost use Rattle.heap_cycle.specs.Objects.{HaveCallbacks};
ghost use Rattle.heap_cycle.specs.Parts.{setup_of, state_of, counted, registered_in};
ghost use Rattle.heap_cycle.specs.Parts.{IsReady, IsFrame};
ghost use Rattle.heap_cycle.specs.Printed.{lines_with};
ghost use Rattle.heap_cycle.specs.Registrations.{last_of_type};
ghost use Rattle.heap_engine.specs.CarriedOut.{IsDoneAlone, TellsNothing};

use callback_table::LastRegistered;
use gc_graph::{Line, NoMemory};
use heap_cycle::{Outcome, Parts, place_for};

/// Makes an object of a type with so many extra words, and puts it into slot p. Its callbacks are
/// registered first, and taken away again where the heap is full. Memory can be wanting for them
/// alone. While a sweep is open, pages are swept on the way to a place, and while marking goes
/// on, the new object may be kept.
pub fn new_object(parts: &mut Parts, outcome: &mut Outcome, p: u32, t: u32, extra: u32)
    requires ready { IsReady parts.old }
    requires slot { p < 256 }
    requires ty { t < length parts.old.objects.types }
    requires extra { extra ≤ 33554432 }
    requires numbered { length parts.old.objects.nodes < most_nodes }
    requires nothing { TellsNothing outcome.old }
    requires room { word_count parts.old.objects.shape ≤ 2 * outcome.old.room }
    ensures done { IsDoneAlone (C.New p t extra) parts.old parts.new outcome.old outcome.new }
{
    let line = make(parts, outcome, p, t, extra);
    outcome.end(line);
}

/// The line that tells of the new object.
fn make(parts: &mut Parts, outcome: &mut Outcome, p: u32, t: u32, extra: u32) -> Line
    requires ready { IsReady parts.old }
    requires slot { p < 256 }
    requires ty { t < length parts.old.objects.types }
    requires extra { extra ≤ 33554432 }
    requires numbered { length parts.old.objects.nodes < most_nodes }
    requires numbers { outcome.old.numbers ≡ [] }
    requires calm { outcome.old.calls_back ≡ false }
    requires room { word_count parts.old.objects.shape ≤ 2 * outcome.old.room }
    ensures step { StepNew (setup_of parts.old) (state_of parts.old) p t extra
        (lines_with outcome.new parts.new.cycle.ran result) (answered (state_of parts.new)) }
    ensures frame { IsFrame parts.old (counted parts.new) result }
    ensures region { parts.new.region ≡ parts.old.region }
    ensures calm { outcome.new.calls_back ≡ false }
    ensures room { outcome.new.room ≡ outcome.old.room }
{
    let number = parts.objects.made();
    let Ok(last) = register(parts, t) else {
        return Line::Memory;
    };
    let size = parts.objects.size_of(t, extra);
    let Some(place) = place_for(parts, last, size, outcome) else {
        parts.cycle.unregister_last(last);
        parts.cycle.count_full();
        return Line::Full;
    };
    parts.objects.make(t, extra, size, place);
    parts.cycle.place_last(last, place);
    parts.cycle.keep_new();
    parts.handles.put(p, Some((place, number)));
    Line::Placed {
        k: number,
        a: place,
    }
}

/// Registers the callbacks of the type for the next object, which has no place yet, and answers which
/// of the last registrations these are. Memory is not wanting where there are none.
fn register(parts: &mut Parts, t: u32) -> Result<LastRegistered, NoMemory>
    requires ty { t < length parts.old.objects.types }
    requires called { HaveCallbacks (length parts.old.objects.callbacks) parts.old.objects.types }
    ensures last { IfOk result (λ last. last ≡ last_of_type parts.old t) }
    ensures registered { OnOk result (parts.new ≡ registered_in parts.old t 0) }
    ensures some { OnErr result (((type_at (setup_of parts.old) t).prefinalizers ≢ [])
        ⊎ ((type_at (setup_of parts.old) t).weak_callbacks ≢ [])) }
    ensures same { OnErr result (parts.new ≡ parts.old) }
{
    let prefinalizers = parts.objects.callbacks(t);
    let weak_callbacks = parts.objects.weak_callbacks(t);
    if prefinalizers.is_empty() && weak_callbacks.is_empty() {
        return Ok(LastRegistered {
            prefinalizers: 0,
            weakly: false,
        });
    }
    let number = parts.objects.made();
    parts.cycle.register(number, prefinalizers, weak_callbacks)
}
