// Lists of steps, taken one after the other.

ghost use Rattle.std.specs.Prelude.{◌≡◌, ℕ, List, true, Some, IfOk, IfErr, OnOk};
ghost use Rattle.marker_core.specs.Step.{is_allowed, changed, core_run};
ghost use Rattle.marker_core.specs.Core.{IsCoreOk};
ghost use Rattle.core_steps.specs.Faults.{IsStepFault};

use crate::cycle::{begin, can_begin, can_end, end, ends, stop};
use crate::lending::{can_join, can_split, join, lend};
use crate::looking::{can_look, can_read_bit, look, read_bit};
use crate::markers::{
    can_claim_as, can_mark_as, can_poll, can_read_field, claim_as, mark_as, poll, read_field,
};
use crate::marking::{can_claim, can_mark, can_unmark, claim, mark, unmark};
use crate::mutator::{can_fill, can_load, can_store, fill, load, store};
use crate::objects::{can_retract, object_at, publish, retract};
use gc_graph::NoMemory;
use marker_core::{CoreState, CoreStep, List, every_step_keeps};
use std::alloc::Global;
use thiserror::Error;

/// Why a list of steps was not taken to its end.
#[derive(Debug, Drop, Error)]
pub enum CoreFault {
    /// The step at this position is the first that isn't allowed.
    #[error("step {at} is not allowed")]
    NotAllowed { at: u64 },
    /// The allocator gave no memory.
    #[error("no memory")]
    NoMemory,
}

fn can_publish(alloc: Global, s: &CoreState, a: u32) -> Result<bool, NoMemory>
    requires { IsCoreOk s.now }
    ensures { IfOk result (λ can. can ≡ is_allowed s.now (CoreStep.Publish a)) }
{
    let object = object_at(alloc, s, a)?;
    Ok(object.is_some())
}

fn can_stop(s: &CoreState, on: bool) -> bool
    ensures { (roots : List ℕ) → result ≡ is_allowed s.now (CoreStep.Stop on roots) }
{
    if !on {
        return can_begin(s);
    }
    !ends(s) || can_end(s)
}

fn can_change_header(s: &CoreState, a: u32, claims: bool) -> bool
    ensures { result ≡ is_allowed s.now (CoreStep.Header a claims) }
{
    if claims {
        can_claim(s, a)
    } else {
        can_unmark(s, a)
    }
}

/// The step is allowed.
fn is_allowed(alloc: Global, s: &CoreState, step: &CoreStep) -> Result<bool, NoMemory>
    requires { IsCoreOk s.now }
    ensures { IfOk result (λ can. can ≡ is_allowed s.now step.now) }
{
    if let CoreStep::Publish { a } = step {
        return can_publish(alloc, s, *a);
    }
    Ok(match step {
        CoreStep::Load { a, why } => can_load(s, *a, *why),
        CoreStep::Fill { a, .. } => can_fill(s, *a),
        CoreStep::Store { a, w } => can_store(s, *a, *w),
        CoreStep::Publish { .. } => false,
        CoreStep::Retract { a } => can_retract(s, *a),
        CoreStep::Mark { a } => can_mark(s, *a),
        CoreStep::Header { a, claim } => can_change_header(s, *a, *claim),
        CoreStep::Stop { on, .. } => can_stop(s, *on),
        CoreStep::Split => can_split(s),
        CoreStep::Join { marker } => can_join(s, *marker),
        CoreStep::Bit { marker, a } => can_read_bit(s, *marker, *a),
        CoreStep::Look { marker, a } => can_look(s, *marker, *a),
        CoreStep::Claim { marker, a, header } => can_claim_as(s, *marker, *a, *header),
        CoreStep::Field { marker, a } => can_read_field(s, *marker, *a),
        CoreStep::MarkerMark { marker, a } => can_mark_as(s, *marker, *a),
        CoreStep::Poll { marker } => can_poll(s, *marker),
    })
}

fn publish_at(alloc: Global, s: &mut CoreState, a: u32) -> Result<(), NoMemory>
    requires ok { IsCoreOk s.old }
    requires can { is_allowed s.old (CoreStep.Publish a) ≡ true }
    ensures { OnOk result (s.new ≡ changed s.old (CoreStep.Publish a)) }
{
    match object_at(alloc, s, a)? {
        Some(b) => publish(s, a, b),
        None => Ok(()),
    }
}

fn change_header(s: &mut CoreState, a: u32, claims: bool) -> Result<(), NoMemory>
    requires { IsCoreOk s.old }
    ensures { OnOk result (s.new ≡ changed s.old (CoreStep.Header a claims)) }
{
    if claims {
        return claim(s, a);
    }
    unmark(s, a);
    Ok(())
}

fn change_stop(
    alloc: Global,
    s: &mut CoreState,
    on: bool,
    roots: &List<u32>,
) -> Result<(), NoMemory>
    requires { IsCoreOk s.old }
    ensures { OnOk result (s.new ≡ changed s.old (CoreStep.Stop on roots.now)) }
{
    if !on {
        return begin(alloc, s, roots.as_slice());
    }
    if ends(s) {
        return end(alloc, s);
    }
    stop(s);
    Ok(())
}

/// The state after a step of the mutator that is allowed.
fn change(alloc: Global, s: &mut CoreState, step: &CoreStep) -> Result<(), NoMemory>
    requires ok { IsCoreOk s.old }
    requires can { is_allowed s.old step.now ≡ true }
    ensures { OnOk result (s.new ≡ changed s.old step.now) }
{
    match step {
        CoreStep::Load { a, why } => load(alloc, s, *a, *why),
        CoreStep::Fill { a, w } => fill(s, *a, *w),
        CoreStep::Store { a, w } => {
            store(s, *a, *w);
            Ok(())
        }
        CoreStep::Publish { a } => publish_at(alloc, s, *a),
        CoreStep::Retract { a } => {
            retract(s, *a);
            Ok(())
        }
        CoreStep::Mark { a } => mark(s, *a),
        CoreStep::Header { a, claim } => change_header(s, *a, *claim),
        CoreStep::Stop { on, roots } => change_stop(alloc, s, *on, roots),
        CoreStep::Split => lend(alloc, s),
        CoreStep::Join { marker } => join(alloc, s, *marker),
        CoreStep::Bit { marker, a } => read_bit(alloc, s, *marker, *a),
        CoreStep::Look { marker, a } => look(alloc, s, *marker, *a),
        CoreStep::Claim { marker, a, header } => claim_as(alloc, s, *marker, *a, *header),
        CoreStep::Field { marker, a } => read_field(alloc, s, *marker, *a),
        CoreStep::MarkerMark { marker, a } => mark_as(alloc, s, *marker, *a),
        CoreStep::Poll { marker } => {
            poll(alloc, s, *marker);
            Ok(())
        }
    }
}

/// One step, where it is allowed; false where it isn't.
fn advance(alloc: Global, s: &mut CoreState, step: &CoreStep) -> Result<bool, NoMemory>
    requires { IsCoreOk s.old }
    ensures { IfOk result (λ done. (done ≡ is_allowed s.old step.now)
        × (done ≡ true → s.new ≡ changed s.old step.now)) }
{
    let allowed = is_allowed(alloc, s, step)?;
    if allowed {
        change(alloc, s, step)?;
    }
    Ok(allowed)
}

/// The steps one after the other, up to the first that isn't allowed.
fn advance_all(alloc: Global, s: &mut CoreState, steps: &[CoreStep]) -> Result<(), CoreFault>
    requires { IsCoreOk s.old }
    ensures state { OnOk result (core_run s.old steps.now ≡ Some s.new) }
    ensures ok { OnOk result (IsCoreOk s.new) }
    ensures refused { IfErr result (IsStepFault s.old steps.now) }
{
    every_step_keeps();
    for (at, step) in steps.iter().enumerate() {
        match advance(alloc, s, step) {
            Ok(true) => {}
            Ok(false) => return Err(CoreFault::NotAllowed { at: at as u64 }),
            Err(_) => return Err(CoreFault::NoMemory),
        }
    }
    Ok(())
}

/// The state after all steps. Want of memory may be answered at any step.
pub fn after(
    alloc: Global,
    mut start: CoreState,
    steps: &[CoreStep],
) -> Result<CoreState, CoreFault>
    requires { IsCoreOk start }
    ensures state { IfOk result (λ s. core_run start steps.now ≡ Some s) }
    ensures ok { IfOk result (λ s. IsCoreOk s) }
    ensures refused { IfErr result (IsStepFault start steps.now) }
{
    match advance_all(alloc, &mut start, steps) {
        Ok(()) => Ok(start),
        Err(fault) => Err(fault),
    }
}
