// Reads and writes of fields (`include/cppgc/member.h`).

ghost use Rattle.std.specs.Prelude.{◌≡◌, ◌<◌, [], ◌∷◌, None};
ghost use Rattle.std.specs.Prelude.{MatchOption, IfSome, slice_index_or};
ghost use Rattle.gc_graph.specs.declared.command.Command.TheVariants as C;
ghost use Rattle.gc_graph.specs.declared.line.Line.TheVariants as L;
ghost use Rattle.gc_graph.specs.declared.line.Refusal.TheVariants as R;
ghost use Rattle.gc_graph.specs.Fields.{is_weak};
ghost use Rattle.gc_graph.specs.Outcomes.{answered};
ghost use Rattle.gc_graph.specs.ObjectSteps.{StepGet, StepWord};
ghost use Rattle.heap_cycle.specs.Nodes.{place_of, word_of};
ghost use Rattle.heap_cycle.specs.Fields.{allows, FindsField, Suits};
ghost use Rattle.heap_cycle.specs.Objects.{IsLiveAt};
ghost use Rattle.heap_engine.specs.CarriedOut.{IsDoneAlone, TellsNothing};
ghost use Rattle.heap_engine.specs.FieldSteps.{StepWrite, IsKeptIn, HasRead};
ghost use Rattle.heap_cycle.specs.Parts.{state_of, counted, IsReady, IsFrame};

use gc_graph::{Kind, Line, Refusal};
use heap_cycle::{Content, Field, Outcome, Parts, Wanted, read_weakly};

/// Field f of slot p's object gets what slot q holds. The field is a strong or a weak one.
pub fn set(parts: &mut Parts, outcome: &mut Outcome, p: u32, f: u32, q: u32)
    requires ready { IsReady parts.old }
    requires slot { p < 256 }
    requires content { q < 256 }
    requires nothing { TellsNothing outcome.old }
    ensures done { IsDoneAlone (C.Set p f q) parts.old parts.new outcome.old outcome.new }
{
    let content = parts.handles.content(q);
    outcome.end(write(parts, p, f, Wanted::References, &content));
}

/// Field f of slot p's object becomes null. The field is a strong or a weak one.
pub fn set_null(parts: &mut Parts, outcome: &mut Outcome, p: u32, f: u32)
    requires ready { IsReady parts.old }
    requires slot { p < 256 }
    requires nothing { TellsNothing outcome.old }
    ensures done { IsDoneAlone (C.SetNull p f) parts.old parts.new outcome.old outcome.new }
{
    let content = Content::null();
    outcome.end(write(parts, p, f, Wanted::References, &content));
}

/// The plain field f of slot p's object becomes a number.
pub fn put(parts: &mut Parts, outcome: &mut Outcome, p: u32, f: u32, n: u64)
    requires ready { IsReady parts.old }
    requires slot { p < 256 }
    requires nothing { TellsNothing outcome.old }
    ensures done { IsDoneAlone (C.Put p f n) parts.old parts.new outcome.old outcome.new }
{
    let content = Content::number(n);
    outcome.end(write(parts, p, f, Wanted::Numbers, &content));
}

/// Field f of slot p's object gets the content, where it is one of those wanted.
fn write(parts: &mut Parts, p: u32, f: u32, wanted: Wanted, content: &Content) -> Line
    requires ready { IsReady parts.old }
    requires slot { p < 256 }
    requires value { Suits wanted parts.old.objects.nodes content.now.value.value }
    requires word { content.now.word
        ≡ word_of (place_of parts.old.objects.nodes) content.now.value.value }
    requires kept { IsKeptIn wanted parts.old.objects.seat content.now.word }
    ensures step { StepWrite wanted (state_of parts.old) p f content.now.value.value (result ∷ [])
        (answered (state_of parts.new)) }
    ensures frame { IsFrame parts.old (counted parts.new) result }
    ensures region { parts.new.region ≡ parts.old.region }
{
    match field_of(parts, p, f, wanted) {
        Ok(field) => {
            parts
                .objects
                .store(&parts.handles.named(p), f, field, content);
            Line::Fine
        }
        Err(why) => Line::Refused(why),
    }
}

/// Slot q gets what field f of slot p's object holds. The field is a strong or a weak one.
pub fn get(parts: &mut Parts, outcome: &mut Outcome, p: u32, f: u32, q: u32)
    requires ready { IsReady parts.old }
    requires slot { p < 256 }
    requires into { q < 256 }
    requires nothing { TellsNothing outcome.old }
    ensures done { IsDoneAlone (C.Get p f q) parts.old parts.new outcome.old outcome.new }
{
    outcome.end(read_field(parts, p, f, q));
}

/// Slot q gets what field f of slot p's object holds.
fn read_field(parts: &mut Parts, p: u32, f: u32, q: u32) -> Line
    requires ready { IsReady parts.old }
    requires slot { p < 256 }
    requires into { q < 256 }
    ensures step { StepGet (state_of parts.old) p f q (result ∷ [])
        (answered (state_of parts.new)) }
    ensures frame { IsFrame parts.old (counted parts.new) result }
    ensures region { parts.new.region ≡ parts.old.region }
{
    match field_of(parts, p, f, Wanted::References) {
        Ok(field) => {
            let target = parts.objects.target_at(field);
            keep_read(parts, field.kind, target);
            parts.handles.put(q, target);
            line_of(target)
        }
        Err(why) => Line::Refused(why),
    }
}

/// A field of this kind was read, and gave the target: through a weak one the read is a weak one.
fn keep_read(parts: &mut Parts, kind: Kind, target: Option<(u32, u32)>)
    requires ready { IsReady parts.old }
    requires target { IfSome target (λ t. IsLiveAt parts.old.objects.nodes t.1 t.0) }
    ensures { HasRead (is_weak kind) parts.old parts.new target }
{
    match kind {
        Kind::Weak => read_weakly(parts, target),
        Kind::Strong | Kind::Pair | Kind::Plain => {}
    }
}

/// Tells the number in the plain field f of slot p's object.
pub fn word(parts: &mut Parts, outcome: &mut Outcome, p: u32, f: u32)
    requires ready { IsReady parts.old }
    requires slot { p < 256 }
    requires nothing { TellsNothing outcome.old }
    ensures done { IsDoneAlone (C.Word p f) parts.old parts.new outcome.old outcome.new }
{
    outcome.end(read_word(parts, p, f));
}

/// The line that tells the number.
fn read_word(parts: &mut Parts, p: u32, f: u32) -> Line
    requires ready { IsReady parts.old }
    requires slot { p < 256 }
    ensures step { StepWord (state_of parts.old) p f (result ∷ []) (answered (state_of parts.new)) }
    ensures frame { IsFrame parts.old (counted parts.new) result }
    ensures region { parts.new.region ≡ parts.old.region }
{
    match field_of(parts, p, f, Wanted::Numbers) {
        Ok(field) => Line::Word {
            n: parts.objects.word_at(field),
        },
        Err(why) => Line::Refused(why),
    }
}

/// Field f of slot p's object, where it is one of those wanted. A null slot is told before a
/// missing field, and that before a field of another kind.
pub(crate) fn field_of(parts: &mut Parts, p: u32, f: u32, wanted: Wanted) -> Result<Field, Refusal>
    requires ready { IsReady parts.old }
    requires slot { p < 256 }
    ensures field { MatchOption (slice_index_or parts.old.handles.slots p None)
        (result ≡ Err R.Null) (λ n. FindsField (allows wanted) parts.old.objects.nodes n f result) }
    ensures same { parts.new ≡ parts.old }
{
    match parts.handles.place(p) {
        Some(place) => parts.objects.field_at(place, f, wanted),
        None => Err(Refusal::Null),
    }
}

/// How an outcome tells the target.
pub(crate) fn line_of(target: Option<(u32, u32)>) -> Line
    ensures { MatchOption target (result ≡ L.Null) (λ t. result ≡ L.Node t.1) }
{
    match target {
        Some((_, number)) => Line::Node { k: number },
        None => Line::Null,
    }
}
