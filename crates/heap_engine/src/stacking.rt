// The commands on the stack (precise and conservative garbage collection,
// `include/cppgc/README.md`).

ghost use Rattle.std.specs.Prelude.{◌≡◌, ◌<◌, [], ◌∷◌};
ghost use Rattle.gc_graph.specs.declared.command.Command.TheVariants as C;
ghost use Rattle.gc_graph.specs.May.{address_of};
ghost use Rattle.gc_graph.specs.Outcomes.{answered};
ghost use Rattle.gc_graph.specs.HandleSteps.{IsPushed, StepPush, StepPop, StepPeek};
ghost use Rattle.heap_cycle.specs.Stack.{pointed_place, PointsInside};
ghost use Rattle.heap_cycle.specs.Parts.{state_of, counted, IsReady, IsFrame};
ghost use Rattle.heap_engine.specs.CarriedOut.{IsDoneAlone, TellsNothing};

use gc_graph::{Line, Refusal};
use heap_cycle::{Outcome, Parts, Pushed};

/// Pushes a pointer to the word at an offset of slot p's object.
pub fn push(parts: &mut Parts, outcome: &mut Outcome, p: u32, offset: u32)
    requires ready { IsReady parts.old }
    requires slot { p < 256 }
    requires nothing { TellsNothing outcome.old }
    ensures done { IsDoneAlone (C.Push p offset) parts.old parts.new outcome.old outcome.new }
{
    outcome.end(push_pointer(parts, p, offset));
}

/// Pushes a number.
pub fn push_plain(parts: &mut Parts, outcome: &mut Outcome, n: u64)
    requires ready { IsReady parts.old }
    requires nothing { TellsNothing outcome.old }
    ensures done { IsDoneAlone (C.PushPlain n) parts.old parts.new outcome.old outcome.new }
{
    outcome.end(push_word(parts, Pushed::number(n)));
}

/// Pushes the pointer, where there is such a word and the stack has room.
fn push_pointer(parts: &mut Parts, p: u32, offset: u32) -> Line
    requires ready { IsReady parts.old }
    requires slot { p < 256 }
    ensures step { StepPush (state_of parts.old) p offset (result ∷ [])
        (answered (state_of parts.new)) }
    ensures frame { IsFrame parts.old (counted parts.new) result }
    ensures region { parts.new.region ≡ parts.old.region }
{
    match parts.handles.place(p) {
        Some(place) => {
            if offset < parts.objects.size_at(place) {
                let pointer = parts.handles.pointer(p, place, offset);
                push_word(parts, pointer)
            } else {
                Line::Refused(Refusal::Field)
            }
        }
        None => Line::Refused(Refusal::Null),
    }
}

/// Pushes the word, where the stack has room.
fn push_word(parts: &mut Parts, pushed: Pushed) -> Line
    requires ready { IsReady parts.old }
    requires address { pushed.address ≡ address_of parts.old.objects.nodes pushed.word.value }
    requires place { pushed.place ≡ pointed_place parts.old.objects.nodes pushed.word.value }
    requires inside { PointsInside parts.old.objects.nodes pushed.word.value }
    ensures step { IsPushed (state_of parts.old) pushed.word.value
        (result ∷ []) (answered (state_of parts.new)) }
    ensures frame { IsFrame parts.old (counted parts.new) result }
    ensures region { parts.new.region ≡ parts.old.region }
{
    if parts.handles.stack().has_room() {
        parts.handles.push(pushed);
        Line::Fine
    } else {
        Line::Refused(Refusal::Stack)
    }
}

/// Takes the last word away.
pub fn pop(parts: &mut Parts, outcome: &mut Outcome)
    requires ready { IsReady parts.old }
    requires nothing { TellsNothing outcome.old }
    ensures done { IsDoneAlone C.Pop parts.old parts.new outcome.old outcome.new }
{
    outcome.end(pop_word(parts));
}

/// Takes the last word away, where there is one.
fn pop_word(parts: &mut Parts) -> Line
    requires ready { IsReady parts.old }
    ensures step { StepPop (state_of parts.old) (result ∷ []) (answered (state_of parts.new)) }
    ensures frame { IsFrame parts.old (counted parts.new) result }
    ensures region { parts.new.region ≡ parts.old.region }
{
    if parts.handles.stack().has_words() {
        parts.handles.pop();
        Line::Fine
    } else {
        Line::Refused(Refusal::Empty)
    }
}

/// Slot q gets the object to which a word points. The last word has the number 0.
pub fn peek(parts: &mut Parts, outcome: &mut Outcome, i: u32, q: u32)
    requires ready { IsReady parts.old }
    requires into { q < 256 }
    requires nothing { TellsNothing outcome.old }
    ensures done { IsDoneAlone (C.Peek i q) parts.old parts.new outcome.old outcome.new }
{
    outcome.end(peek_word(parts, i, q));
}

/// Slot q gets the object, where there is such a word and it points to one.
fn peek_word(parts: &mut Parts, i: u32, q: u32) -> Line
    requires ready { IsReady parts.old }
    requires into { q < 256 }
    ensures step { StepPeek (state_of parts.old) i q (result ∷ []) (answered (state_of parts.new)) }
    ensures frame { IsFrame parts.old (counted parts.new) result }
    ensures region { parts.new.region ≡ parts.old.region }
{
    match parts.handles.stack().place(i) {
        Some(Some(place)) => {
            let number = parts.objects.number_at(place);
            parts.handles.put(q, Some((place, number)));
            Line::Node { k: number }
        }
        Some(None) => Line::Refused(Refusal::Kind),
        None => Line::Refused(Refusal::Empty),
    }
}
