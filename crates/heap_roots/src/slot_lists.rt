// What slots name, and how calls on the handles change it. All of it is for contracts alone.

ghost use Rattle.std.specs.Prelude.{◌≡◌, None, replicate, option_map, map};
ghost use Rattle.std.specs.Prelude.{slice_index_or, slice_set};
ghost use Rattle.gc_graph.specs.Fields.{content_of};
ghost use Rattle.gc_graph.specs.ObjectSteps.{part_of};
ghost use Rattle.gc_graph.specs.Pause.{is_dead_at, clear_slot};

use ghost_values::GhostValue;
use heap_region::{Names, Objects, Values};
use std::marker::Model;

/// A list of what slots name. It is never made.
#[derive(Drop)]
pub struct SlotLists {
    none: u8,
}

impl Model for SlotLists {
    ghost use Rattle.std.specs.Prelude.{List, [], ℕ, Option};

    ghost Value = { List (Option ℕ) };

    ghost view = { λ slots. [] };
}

pub fn null(count: u32) -> GhostValue<SlotLists>
    ensures { result.value ≡ replicate count None }
{
    GhostValue::chosen(&count)
}

/// What a change of a slot looks at.
#[derive(Drop)]
struct AboutTarget<'a> {
    slots: &'a GhostValue<SlotLists>,
    p: u32,
    target: Option<(u32, u32)>,
}

/// Slot p names the node of the target, or none.
pub fn with_target(
    slots: &GhostValue<SlotLists>,
    p: u32,
    target: Option<(u32, u32)>,
) -> GhostValue<SlotLists>
    ensures { result.value ≡ slice_set slots.now.value p (option_map (λ t. t.1) target) }
{
    GhostValue::chosen(&AboutTarget { slots, p, target })
}

/// What a copy from slot to slot looks at.
#[derive(Drop)]
struct AboutCopy<'a> {
    from: &'a GhostValue<SlotLists>,
    p: u32,
    into: &'a GhostValue<SlotLists>,
    q: u32,
}

/// Slot q of the second list names what slot p of the first one names.
pub fn copied(
    from: &GhostValue<SlotLists>,
    p: u32,
    into: &GhostValue<SlotLists>,
    q: u32,
) -> GhostValue<SlotLists>
    ensures { result.value
        ≡ slice_set into.now.value q (slice_index_or from.now.value p None) }
{
    GhostValue::chosen(&AboutCopy { from, p, into, q })
}

/// What weak clearing looks at.
#[derive(Drop)]
struct AboutWeak<'a> {
    weak: &'a GhostValue<SlotLists>,
    objects: &'a Objects,
}

/// The weak slots that name a dead node are null.
pub fn cleared(weak: &GhostValue<SlotLists>, objects: &Objects) -> GhostValue<SlotLists>
    ensures { result.value ≡ map (clear_slot (is_dead_at objects.now.nodes)) weak.now.value }
{
    GhostValue::chosen(&AboutWeak { weak, objects })
}

/// What a look at a slot looks at.
#[derive(Drop)]
struct AboutSlot<'a> {
    slots: &'a GhostValue<SlotLists>,
    q: u32,
}

/// What slot q names.
pub fn named(slots: &GhostValue<SlotLists>, q: u32) -> GhostValue<Names>
    ensures { result.value ≡ slice_index_or slots.now.value q None }
{
    GhostValue::chosen(&AboutSlot { slots, q })
}

/// What slot q names, as the value of a field.
pub fn value_of(slots: &GhostValue<SlotLists>, q: u32) -> GhostValue<Values>
    ensures { result.value ≡ content_of (slice_index_or slots.now.value q None) }
{
    GhostValue::chosen(&AboutSlot { slots, q })
}

/// What a look at two slots looks at.
#[derive(Drop)]
struct AboutSlots<'a> {
    slots: &'a GhostValue<SlotLists>,
    q: u32,
    other: u32,
}

/// What slot q names, as one part of a pair whose other part the other slot names.
pub fn part_of(slots: &GhostValue<SlotLists>, q: u32, other: u32) -> GhostValue<Values>
    ensures { result.value ≡ part_of (slice_index_or slots.now.value q None)
        (slice_index_or slots.now.value other None) }
{
    GhostValue::chosen(&AboutSlots { slots, q, other })
}
