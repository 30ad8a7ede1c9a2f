// The commands on ephemeron pairs (`include/cppgc/ephemeron-pair.h`).

ghost use Rattle.std.specs.Prelude.{◌≡◌, ◌<◌, [], ◌∷◌};
ghost use Rattle.gc_graph.specs.declared.command.Command.TheVariants as C;
ghost use Rattle.gc_graph.specs.Outcomes.{answered};
ghost use Rattle.heap_cycle.specs.Barrier.{MayKeepNamed};
ghost use Rattle.heap_cycle.specs.Nodes.{place_of, word_of};
ghost use Rattle.heap_cycle.specs.Fields.{ArePartsOf};
ghost use Rattle.heap_engine.specs.CarriedOut.{IsDoneAlone, TellsNothing};
ghost use Rattle.heap_engine.specs.FieldSteps.{StepPart, StepWholePair};
ghost use Rattle.heap_cycle.specs.Parts.{state_of, counted, IsReady, IsFrame};

use crate::fields::{field_of, line_of};
use gc_graph::Line;
use heap_cycle::{Content, Outcome, PairContent, Part, Parts, Wanted, read_weakly};

/// The pair that is field f of slot p's object gets what slot k holds as its key and what slot v
/// holds as its value, and becomes null where either slot is.
pub fn pair(parts: &mut Parts, outcome: &mut Outcome, p: u32, f: u32, k: u32, v: u32)
    requires ready { IsReady parts.old }
    requires slot { p < 256 }
    requires key { k < 256 }
    requires value { v < 256 }
    requires nothing { TellsNothing outcome.old }
    ensures done { IsDoneAlone (C.Pair p f k v) parts.old parts.new outcome.old outcome.new }
{
    let pair = PairContent {
        key: parts.handles.part(k, v),
        value: parts.handles.part(v, k),
    };
    outcome.end(write_pair(parts, p, f, &pair));
}

/// The pair that is field f of slot p's object becomes null.
pub fn pair_null(parts: &mut Parts, outcome: &mut Outcome, p: u32, f: u32)
    requires ready { IsReady parts.old }
    requires slot { p < 256 }
    requires nothing { TellsNothing outcome.old }
    ensures done { IsDoneAlone (C.PairNull p f) parts.old parts.new outcome.old outcome.new }
{
    let pair = PairContent {
        key: Content::null(),
        value: Content::null(),
    };
    outcome.end(write_pair(parts, p, f, &pair));
}

/// Slot q gets the key of the pair that is field f of slot p's object, by a weak read.
pub fn key(parts: &mut Parts, outcome: &mut Outcome, p: u32, f: u32, q: u32)
    requires ready { IsReady parts.old }
    requires slot { p < 256 }
    requires into { q < 256 }
    requires nothing { TellsNothing outcome.old }
    ensures done { IsDoneAlone (C.Key p f q) parts.old parts.new outcome.old outcome.new }
{
    outcome.end(read_part(parts, p, f, q, Part::Key));
}

/// Slot q gets the value of the pair that is field f of slot p's object, by a weak read.
pub fn value(parts: &mut Parts, outcome: &mut Outcome, p: u32, f: u32, q: u32)
    requires ready { IsReady parts.old }
    requires slot { p < 256 }
    requires into { q < 256 }
    requires nothing { TellsNothing outcome.old }
    ensures done { IsDoneAlone (C.Val p f q) parts.old parts.new outcome.old outcome.new }
{
    outcome.end(read_part(parts, p, f, q, Part::Value));
}

/// The pair that is field f of slot p's object gets the key and the value.
fn write_pair(parts: &mut Parts, p: u32, f: u32, pair: &PairContent) -> Line
    requires ready { IsReady parts.old }
    requires slot { p < 256 }
    requires both { ArePartsOf parts.old.objects.nodes pair.now.key.value.value
        pair.now.value.value.value }
    requires key { pair.now.key.word
        ≡ word_of (place_of parts.old.objects.nodes) pair.now.key.value.value }
    requires value { pair.now.value.word
        ≡ word_of (place_of parts.old.objects.nodes) pair.now.value.value.value }
    requires key_kept { MayKeepNamed parts.old.objects.seat pair.now.key.word }
    requires value_kept { MayKeepNamed parts.old.objects.seat pair.now.value.word }
    ensures step { StepWholePair (state_of parts.old) p f
        pair.now.key.value.value pair.now.value.value.value (result ∷ [])
        (answered (state_of parts.new)) }
    ensures frame { IsFrame parts.old (counted parts.new) result }
    ensures region { parts.new.region ≡ parts.old.region }
{
    match field_of(parts, p, f, Wanted::Pairs) {
        Ok(field) => {
            parts
                .objects
                .store_pair(&parts.handles.named(p), f, field, pair);
            Line::Fine
        }
        Err(why) => Line::Refused(why),
    }
}

/// Slot q gets a part of the pair that is field f of slot p's object.
fn read_part(parts: &mut Parts, p: u32, f: u32, q: u32, part: Part) -> Line
    requires ready { IsReady parts.old }
    requires slot { p < 256 }
    requires into { q < 256 }
    ensures step { StepPart part (state_of parts.old) p f q (result ∷ [])
        (answered (state_of parts.new)) }
    ensures frame { IsFrame parts.old (counted parts.new) result }
    ensures region { parts.new.region ≡ parts.old.region }
{
    match field_of(parts, p, f, Wanted::Pairs) {
        Ok(field) => {
            let target = parts.objects.part_at(field, part);
            read_weakly(parts, target);
            parts.handles.put(q, target);
            line_of(target)
        }
        Err(why) => Line::Refused(why),
    }
}
