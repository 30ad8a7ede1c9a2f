// Where a new object goes while a sweep may be open (lazy sweeping, `include/cppgc/heap.h`).

ghost use Rattle.std.specs.Prelude.{◌≡◌, ◌*◌, ◌^◌, ◌<◌, ◌≤◌, [], length, Some};
ghost use Rattle.std.specs.Prelude.{IfSome, IfNone, vec_capacity};
ghost use Rattle.gc_graph.specs.Placement.{IsPlacement, IsNowhere, extents_of};
ghost use Rattle.heap_roots.specs.Pages.{word_count};
ghost use Rattle.heap_roots.specs.Space.{FitsBetween, IsFreePlace};
ghost use Rattle.heap_roots.specs.Sweeping.{cursor_at};
ghost use Rattle.heap_roots.specs.Finalising.{AreFewTold};
ghost use Rattle.heap_cycle.specs.Finalising.{IsSearched};
ghost use Rattle.heap_cycle.specs.Parts.{setup_of, state_of, IsManned, IsReady, unregistered};

use crate::outcome::Outcome;
use crate::parts::Parts;
use callback_table::LastRegistered;

/// Where a new object of the size goes: the lowest place in the pages that are swept; else pages
/// are swept one by one until it fits in one of these; else the lowest run of pages without objects.
/// Its registrations are these last ones, and no part of the state yet.
pub fn place_for(
    parts: &mut Parts,
    last: LastRegistered,
    size: u32,
    outcome: &mut Outcome,
) -> Option<u32>
    requires ready { IsReady (unregistered last parts.old) }
    requires some { 2 ≤ size }
    requires most { size < 2 ^ 26 }
    requires empty { outcome.old.numbers ≡ [] }
    requires room { word_count parts.old.objects.shape ≤ 2 * outcome.old.room }
    ensures placed { IsPlacement parts.old.objects.shape
        (state_of (unregistered last parts.old)) size outcome.new.numbers
        (state_of (unregistered last parts.new)) result }
    ensures ready { IsReady (unregistered last parts.new) }
    ensures free { IfSome result
        (IsFreePlace parts.new.objects.shape (extents_of parts.new.objects.nodes) size) }
    ensures swept { IfSome result
        (λ a. a < cursor_at parts.new.objects.shape parts.new.cycle.sweep) }
    ensures registered { parts.new.cycle.registered ≡ parts.old.cycle.registered }
    ensures weakly { parts.new.cycle.weakly ≡ parts.old.cycle.weakly }
    ensures setup { setup_of parts.new ≡ setup_of parts.old }
    ensures grey { parts.new.objects.grey ≡ parts.old.objects.grey }
    ensures manned { IsManned parts.old → IsManned parts.new }
    ensures made { length parts.new.objects.nodes ≡ length parts.old.objects.nodes }
    ensures ordinal { parts.new.cycle.rest.ordinal ≡ parts.old.cycle.rest.ordinal }
    ensures region { parts.new.region ≡ parts.old.region }
    ensures outcome { outcome.new ≡ record outcome.old { numbers = outcome.new.numbers } }
{
    parts.objects.shape_is_valid();
    parts.objects.dead_are_few();
    gc_graph::sweeps_go_by_pages();
    let swept = parts.cycle.swept_pages();
    if let Some(place) = parts.objects.find(size, 0, swept) {
        return Some(place);
    }
    if let Some(place) = sweep_until_found(parts, last, size, &mut outcome.finalised) {
        return Some(place);
    }
    parts.objects.find_empty(size)
}

/// Sweeps page after page until the object fits in the last of them.
fn sweep_until_found(
    parts: &mut Parts,
    last: LastRegistered,
    size: u32,
    finalised: &mut Vec<u32>,
) -> Option<u32>
    requires ready { IsReady (unregistered last parts.old) }
    requires some { 2 ≤ size }
    requires empty { finalised.old.items ≡ [] }
    requires told { AreFewTold parts.old.objects.shape
        (cursor_at parts.old.objects.shape parts.old.cycle.sweep)
        parts.old.objects.seat finalised.old.items }
    requires nowhere { IsNowhere (FitsBetween parts.old.objects.shape 0
        parts.old.cycle.sweep.cursor (extents_of parts.old.objects.nodes) size) }
    requires room { word_count parts.old.objects.shape ≤ 2 * vec_capacity finalised.old }
    ensures placed { IfSome result (λ a. IsPlacement parts.old.objects.shape
        (state_of (unregistered last parts.old)) size finalised.new.items
        (state_of (unregistered last parts.new)) (Some a)) }
    ensures searched { IfNone result (IsSearched parts.old.objects.shape
        (state_of (unregistered last parts.old)) size
        parts.old.objects.shape.pages finalised.new.items
        (state_of (unregistered last parts.new))) }
    ensures all { IfNone result (parts.new.cycle.sweep.cursor ≡ parts.old.objects.shape.pages) }
    ensures ready { IsReady (unregistered last parts.new) }
    ensures free { IfSome result
        (IsFreePlace parts.new.objects.shape (extents_of parts.new.objects.nodes) size) }
    ensures swept { IfSome result
        (λ a. a < cursor_at parts.new.objects.shape parts.new.cycle.sweep) }
    ensures registered { parts.new.cycle.registered ≡ parts.old.cycle.registered }
    ensures weakly { parts.new.cycle.weakly ≡ parts.old.cycle.weakly }
    ensures setup { setup_of parts.new ≡ setup_of parts.old }
    ensures grey { parts.new.objects.grey ≡ parts.old.objects.grey }
    ensures manned { IsManned parts.old → IsManned parts.new }
    ensures made { length parts.new.objects.nodes ≡ length parts.old.objects.nodes }
    ensures ordinal { parts.new.cycle.rest.ordinal ≡ parts.old.cycle.rest.ordinal }
    ensures region { parts.new.region ≡ parts.old.region }
    ensures told { AreFewTold parts.new.objects.shape
        (cursor_at parts.new.objects.shape parts.new.cycle.sweep)
        parts.new.objects.seat finalised.new.items }
    ensures room { vec_capacity finalised.new ≡ vec_capacity finalised.old }
{
    parts.objects.shape_is_valid();
    gc_graph::step_keeps_valid();
    gc_graph::sweeps_go_by_pages();
    for page in parts.cycle.swept_pages()..parts.objects.pages() {
        parts.cycle.sweep_page(&mut parts.objects, finalised);
        if let Some(place) = parts.objects.find(size, page, page + 1) {
            return Some(place);
        }
    }
    None
}
