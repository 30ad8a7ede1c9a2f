// The commands that sweep (lazy sweeping, `include/cppgc/heap.h`).

ghost use Rattle.std.specs.Prelude.{◌≡◌, ◌+◌, ◌*◌, ◌^◌, ◌≤◌, false, [], length};
ghost use Rattle.std.specs.Prelude.{min, vec_capacity};
ghost use Rattle.gc_graph.specs.declared.phase.Phase.TheVariants.{Idle, Sweeping};
ghost use Rattle.gc_graph.specs.Outcomes.{answered};
ghost use Rattle.gc_graph.specs.CycleSteps.{StepSweep, StepSweepAll, is_marking};
ghost use Rattle.gc_graph.specs.Sweep.{SweepsTo, SweepsToEnd};
ghost use Rattle.heap_roots.specs.Pages.{word_count};
ghost use Rattle.heap_cycle.specs.Parts.{setup_of, state_of, counted, IsReady, IsFrame, IsManned};
ghost use Rattle.heap_cycle.specs.Printed.{lines_with};

use crate::outcome::Outcome;
use crate::parts::Parts;
use gc_graph::{Line, Phase, Refusal};

/// Sweeps so many pages more, or those that are left; refused where no sweep is open.
pub fn sweep_some(parts: &mut Parts, outcome: &mut Outcome, n: u32) -> Line
    requires ready { IsReady parts.old }
    requires numbers { outcome.old.numbers ≡ [] }
    requires calm { outcome.old.calls_back ≡ false }
    requires room { word_count parts.old.objects.shape ≤ 2 * outcome.old.room }
    ensures step { StepSweep (setup_of parts.old) (state_of parts.old) n
        (lines_with outcome.new parts.new.cycle.ran result) (answered (state_of parts.new)) }
    ensures frame { IsFrame parts.old (counted parts.new) result }
    ensures region { parts.new.region ≡ parts.old.region }
    ensures calm { outcome.new.calls_back ≡ false }
    ensures room { outcome.new.room ≡ outcome.old.room }
{
    match parts.cycle.phase() {
        Phase::Idle | Phase::Marking => Line::Refused(Refusal::Phase),
        Phase::Sweeping => {
            sweep_pages(parts, &mut outcome.finalised, n);
            Line::Swept {
                c: parts.cycle.swept_pages(),
            }
        }
    }
}

/// Ends the open sweep, or refuses where none is open.
pub fn sweep_all(parts: &mut Parts, outcome: &mut Outcome) -> Line
    requires ready { IsReady parts.old }
    requires numbers { outcome.old.numbers ≡ [] }
    requires calm { outcome.old.calls_back ≡ false }
    requires room { word_count parts.old.objects.shape ≤ 2 * outcome.old.room }
    ensures step { StepSweepAll (setup_of parts.old) (state_of parts.old)
        (lines_with outcome.new parts.new.cycle.ran result) (answered (state_of parts.new)) }
    ensures frame { IsFrame parts.old (counted parts.new) result }
    ensures region { parts.new.region ≡ parts.old.region }
    ensures calm { outcome.new.calls_back ≡ false }
    ensures room { outcome.new.room ≡ outcome.old.room }
{
    match parts.cycle.phase() {
        Phase::Idle | Phase::Marking => Line::Refused(Refusal::Phase),
        Phase::Sweeping => {
            end_sweep(parts, &mut outcome.finalised);
            Line::Swept {
                c: parts.objects.pages(),
            }
        }
    }
}

/// Sweeps so many pages more, or those that are left. The state stays valid.
fn sweep_pages(parts: &mut Parts, finalised: &mut Vec<u32>, n: u32)
    requires ready { IsReady parts.old }
    requires sweeping { parts.old.cycle.phase ≡ Sweeping }
    requires empty { finalised.old.items ≡ [] }
    requires room { word_count parts.old.objects.shape ≤ 2 * vec_capacity finalised.old }
    ensures swept { SweepsTo parts.old.objects.shape (state_of parts.old)
        (min (parts.old.cycle.rest.cursor + n) parts.old.objects.shape.pages)
        finalised.new.items (state_of parts.new) }
    ensures cursor { parts.new.cycle.sweep.cursor
        ≡ min (parts.old.cycle.rest.cursor + n) parts.old.objects.shape.pages }
    ensures ready { IsReady parts.new }
    ensures setup { setup_of parts.new ≡ setup_of parts.old }
    ensures grey { parts.new.objects.grey ≡ parts.old.objects.grey }
    ensures manned { IsManned parts.old → IsManned parts.new }
    ensures ordinal { parts.new.cycle.rest.ordinal ≡ parts.old.cycle.rest.ordinal }
    ensures region { parts.new.region ≡ parts.old.region }
    ensures many { length finalised.new.items ≤ 2 ^ 24 }
    ensures room { vec_capacity finalised.new ≡ vec_capacity finalised.old }
{
    parts.objects.shape_is_valid();
    gc_graph::step_keeps_valid();
    gc_graph::sweeps_go_by_pages();
    parts.objects.dead_are_few();
    for _page in 0..n.min(parts.objects.pages() - parts.cycle.swept_pages()) {
        parts.cycle.sweep_page(&mut parts.objects, finalised);
    }
}

/// Ends an open sweep, while no marking goes on. The state stays valid.
pub fn end_sweep(parts: &mut Parts, finalised: &mut Vec<u32>)
    requires ready { IsReady parts.old }
    requires calm { is_marking parts.old.cycle.phase ≡ false }
    requires empty { finalised.old.items ≡ [] }
    requires room { word_count parts.old.objects.shape ≤ 2 * vec_capacity finalised.old }
    ensures swept { SweepsToEnd parts.old.objects.shape (state_of parts.old)
        finalised.new.items (state_of parts.new) }
    ensures ready { IsReady parts.new }
    ensures idle { parts.new.cycle.phase ≡ Idle }
    ensures setup { setup_of parts.new ≡ setup_of parts.old }
    ensures grey { parts.new.objects.grey ≡ parts.old.objects.grey }
    ensures manned { IsManned parts.old → IsManned parts.new }
    ensures ordinal { parts.new.cycle.rest.ordinal ≡ parts.old.cycle.rest.ordinal }
    ensures others { parts.new ≡ record parts.old {
      objects = parts.new.objects;
      cycle = parts.new.cycle;
    } }
    ensures many { length finalised.new.items ≤ 2 ^ 24 }
    ensures room { vec_capacity finalised.new ≡ vec_capacity finalised.old }
{
    match parts.cycle.phase() {
        Phase::Idle | Phase::Marking => {}
        Phase::Sweeping => {
            parts.objects.shape_is_valid();
            gc_graph::step_keeps_valid();
            parts.objects.dead_are_few();
            parts.cycle.end_sweep(&mut parts.objects, finalised);
        }
    }
}
