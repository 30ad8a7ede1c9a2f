// What no other part holds of the state, and how calls on the cycle change it. All of it is for
// contracts alone.

ghost use Rattle.std.specs.Prelude.{◌≡◌};
ghost use Rattle.gc_graph.specs.State.{empty_state};
ghost use Rattle.gc_graph.specs.May.{weakly_read};
ghost use Rattle.gc_graph.specs.Outcomes.{answered};
ghost use Rattle.heap_cycle.specs.Parts.{moment_of, state_of};
ghost use Rattle.heap_cycle.specs.Changes.{filled, swept_to, begun_from};
ghost use Rattle.heap_cycle.specs.Changes.{with_new, with_taken, paused_from, traced_more};

use crate::parts::Parts;
use gc_graph::Phase;
use ghost_values::GhostValue;
use heap_roots::OwnedRegion;
use std::marker::Model;

/// A state of the graph. It is never made.
#[derive(Drop)]
pub struct States {
    none: u8,
}

impl Model for States {
    ghost use Rattle.gc_graph.specs.State.{State, empty_state};

    ghost Value = { State };

    ghost view = { λ s. empty_state };
}

pub fn empty() -> GhostValue<States>
    ensures { result.value ≡ empty_state }
{
    GhostValue::chosen(&0u8)
}

/// One command more was answered.
pub fn answered(rest: &GhostValue<States>) -> GhostValue<States>
    ensures { result.value ≡ answered rest.now.value }
{
    GhostValue::chosen(rest)
}

/// One outcome more was full.
pub fn filled(rest: &GhostValue<States>) -> GhostValue<States>
    ensures { result.value ≡ filled rest.now.value }
{
    GhostValue::chosen(rest)
}

/// What a sweep looks at.
#[derive(Drop)]
struct AboutSweep<'a> {
    rest: &'a GhostValue<States>,
    pages: u32,
    count: u32,
}

/// An open sweep went on until so many pages were swept, in which so many nodes were finalised.
pub fn swept(rest: &GhostValue<States>, pages: u32, count: u32) -> GhostValue<States>
    ensures { result.value ≡ swept_to pages count rest.now.value }
{
    GhostValue::chosen(&AboutSweep { rest, pages, count })
}

/// Moments. None is ever made.
#[derive(Drop)]
pub struct Moments {
    none: u8,
}

impl Model for Moments {
    ghost use Rattle.std.specs.Prelude.{[]};
    ghost use Rattle.gc_graph.specs.State.{empty_state};
    ghost use Rattle.heap_cycle.specs.Views.{Moment};

    ghost Value = { Moment };

    ghost view = { λ m. record { state = empty_state; taken = [] } };
}

/// The state of the parts now, and what was taken of the region's history.
pub fn moment(parts: &Parts) -> GhostValue<Moments>
    ensures { result.value ≡ moment_of parts.now }
{
    GhostValue::chosen(parts)
}

/// What the taking of entries looks at.
#[derive(Drop)]
struct AboutTaking<'a> {
    parts: &'a Parts,
    before: &'a GhostValue<Moments>,
}

/// What was taken of the region's history since then is taken of the state too.
pub fn taken(parts: &Parts, before: &GhostValue<Moments>) -> GhostValue<States>
    ensures { result.value
        ≡ with_taken before.now.value parts.now.region.taken parts.now.cycle.rest }
{
    GhostValue::chosen(&AboutTaking { parts, before })
}

/// Marking began in this state.
pub fn begun(parts: &Parts) -> GhostValue<States>
    ensures { result.value ≡ begun_from (state_of parts.now) }
{
    GhostValue::chosen(parts)
}

/// What the end of a pause looks at.
#[derive(Drop)]
struct AboutPause<'a> {
    region: &'a OwnedRegion,
    rest: &'a GhostValue<States>,
    before: &'a GhostValue<Moments>,
}

/// The pause of a cycle is over, and with it what was taken since then is taken of the state.
pub fn paused(
    region: &OwnedRegion,
    rest: &GhostValue<States>,
    before: &GhostValue<Moments>,
) -> GhostValue<States>
    ensures { result.value
        ≡ paused_from (with_taken before.now.value region.now.taken rest.now.value) }
{
    GhostValue::chosen(&AboutPause {
        region,
        rest,
        before,
    })
}

/// What a new object looks at.
#[derive(Drop)]
struct AboutNew<'a> {
    phase: Phase,
    rest: &'a GhostValue<States>,
}

/// A new node may be kept, where marking goes on.
pub fn with_new(phase: Phase, rest: &GhostValue<States>) -> GhostValue<States>
    ensures { result.value ≡ with_new phase rest.now.value }
{
    GhostValue::chosen(&AboutNew { phase, rest })
}

/// What a step looks at.
#[derive(Drop)]
struct AboutStep<'a> {
    rest: &'a GhostValue<States>,
    count: u32,
}

/// A step traced so many objects.
pub fn traced(rest: &GhostValue<States>, count: u32) -> GhostValue<States>
    ensures { result.value ≡ traced_more count rest.now.value }
{
    GhostValue::chosen(&AboutStep { rest, count })
}

/// What a weak read looks at.
#[derive(Drop)]
struct AboutRead<'a> {
    parts: &'a Parts,
    number: u32,
}

/// The node with this number was read weakly.
pub fn read(parts: &Parts, number: u32) -> GhostValue<States>
    ensures { result.value ≡ weakly_read (state_of parts.now) number }
{
    GhostValue::chosen(&AboutRead { parts, number })
}
