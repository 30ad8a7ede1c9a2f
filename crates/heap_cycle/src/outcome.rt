// The outcome of a command: finalised nodes, then at most one more line, and then the callbacks that
// it ran. It takes no memory after it was made.

ghost use Rattle.std.specs.Prelude.{◌≡◌, ◌+◌, ◌-◌, ◌^◌, ◌++◌, ◌<◌, ◌==◌, not, [], length, Some, false};
ghost use Rattle.std.specs.Prelude.{ℕ, List, ◌∷◌, None, IfOk, IfSome, IfNone, slice_get};
ghost use Rattle.gc_graph.specs.declared.line.Line.{Line};
ghost use Rattle.gc_graph.specs.declared.line.Line.TheVariants as L;
ghost use Rattle.heap_cycle.specs.Printed as spec;
ghost use Rattle.heap_cycle.specs.Printed.{all_ran, count_ran, later_lines, outcome_lines};
ghost use Rattle.heap_cycle.specs.Printed.{TellsNode, TellsThoseThatRan};
ghost use Rattle.heap_cycle.specs.Views.{Ran, ran_of};

use callback_table::Registrations;
use gc_graph::{Line, NoMemory};
use std::alloc::Global;
use std::marker::Model;

/// The lines of the last command.
#[derive(Drop)]
pub struct Outcome {
    /// The numbers of finalised nodes, which a sweep fills.
    pub(crate) finalised: Vec<u32>,
    last: Option<Line>,
    /// Whether the last command ran some callbacks, which the cycle holds.
    calls_back: bool,
}

impl Model for Outcome {
    ghost use Rattle.std.specs.Prelude.{◌^◌, ◌≤◌, length, vec_capacity};
    ghost use Rattle.heap_cycle.specs.Printed.{Printed};

    ghost Value = { Printed };

    ghost view = { λ o. record {
      numbers = o.finalised.items;
      last = o.last;
      calls_back = o.calls_back;
      room = vec_capacity o.finalised;
    } };

    ghost invariant = { λ o. length o.finalised.items ≤ 2 ^ 24 };
}

impl Outcome {
    /// An outcome without lines, with room for so many finalised nodes. Want of memory is free.
    pub fn new(alloc: Global, room: usize) -> Result<Outcome, NoMemory>
        ensures { IfOk result (λ o. o
            ≡ record {
              numbers = [];
              last = None;
              calls_back = false;
              room = room;
            }) }
    {
        let finalised = Vec::with_capacity(alloc, room)?;
        Ok(Outcome {
            finalised,
            last: None,
            calls_back: false,
        })
    }

    /// Forgets the finalised nodes; the last line stays until another takes its place.
    pub fn begin(&mut self)
        ensures { self.new ≡ record self.old { numbers = []; calls_back = false } }
    {
        self.finalised.clear();
        self.calls_back = false;
    }

    /// The lines of the callbacks that the pause ran follow the last line. That it ran none is noted
    /// here, so that `only_line` need not look at them.
    pub fn call_back(&mut self, registered: &Registrations)
        ensures { self.new ≡ record self.old {
          calls_back = not (count_ran (ran_of registered.now) == 0);
        } }
    {
        self.calls_back = count_ran(registered) > 0;
    }

    /// Adds the last line.
    pub fn end(&mut self, line: Line)
        ensures { self.new ≡ record self.old { last = Some line } }
    {
        self.last = Some(line);
    }

    /// How many lines there are, once the last one ended it, where these registrations tell what the
    /// last pause ran.
    pub fn count(&self, registered: &Registrations) -> u64
        requires ended { self.now.last ≡ None → ⊥ }
        ensures count { result ≡ length (outcome_lines self.now (ran_of registered.now)) }
        ensures some { 0 < result }
    {
        let called_back = if self.calls_back {
            count_ran(registered) as u64
        } else {
            0
        };
        self.finalised.len() as u64 + 1 + called_back
    }

    /// The last of the lines, where these registrations tell what the last pause ran.
    pub fn last_line(&self, registered: &Registrations) -> Line
        requires ended { self.now.last ≡ None → ⊥ }
        requires ran { TellsThoseThatRan self.now (ran_of registered.now) }
        ensures { slice_get (outcome_lines self.now (ran_of registered.now))
            (length (outcome_lines self.now (ran_of registered.now)) - 1) ≡ Some result }
    {
        if self.calls_back {
            return ran_line(registered, count_ran(registered) - 1);
        }
        match &self.last {
            Some(line) => *line,
            None => unreachable!(),
        }
    }

    /// The line of the outcome, where it has one alone, unless that tells a finalised node or a
    /// callback, whichever the last pause ran.
    pub fn only_line(&self) -> Option<&Line>
        ensures line { IfSome result (λ line. (ran : Ran)
            → outcome_lines self.now ran ≡ line.now ∷ []) }
        ensures none { IfNone result ((ran : Ran) (line : Line)
            → TellsThoseThatRan self.now ran → outcome_lines self.now ran ≡ line ∷ []
            → TellsNode line) }
    {
        if !self.finalised().is_empty() {
            return None;
        }
        if self.calls_back {
            return None;
        }
        match &self.last {
            Some(line) => Some(line),
            None => None,
        }
    }

    /// The numbers of the finalised nodes, whose lines are the first ones.
    pub fn finalised(&self) -> &[u32]
        ensures { result.now ≡ self.now.numbers }
    {
        &self.finalised
    }

    /// A line of the outcome, where these registrations tell what the last pause ran.
    pub fn line(&self, index: u64, registered: &Registrations) -> Line
        requires { index < length (outcome_lines self.now (ran_of registered.now)) }
        ensures { slice_get (outcome_lines self.now (ran_of registered.now)) index ≡ Some result }
    {
        match self.finalised.get(index as usize) {
            Some(number) => Line::Finalise { k: *number },
            None => self.later_line(index - self.finalised.len() as u64, registered),
        }
    }

    /// A line after those of the finalised nodes.
    fn later_line(&self, index: u64, registered: &Registrations) -> Line
        requires { index < length (later_lines self.now (ran_of registered.now)) }
        ensures { slice_get (later_lines self.now (ran_of registered.now)) index ≡ Some result }
    {
        match self.last {
            Some(line) if index == 0 => line,
            Some(_) => ran_line(registered, index as usize - 1),
            None => ran_line(registered, index as usize),
        }
    }
}

/// How many callbacks the last pause ran.
fn count_ran(registered: &Registrations) -> usize
    ensures count { result ≡ spec.count_ran (ran_of registered.now) }
    ensures few { result < 2 ^ 63 + 2 ^ 32 }
{
    registered.weak_callbacks.ran().len() + registered.prefinalizers.ran().len()
}

/// The line of a callback that the last pause ran: first the weak ones, and then the prefinalizers.
fn ran_line(registered: &Registrations, index: usize) -> Line
    requires { index < spec.count_ran (ran_of registered.now) }
    ensures { slice_get (all_ran (ran_of registered.now)) index ≡ Some result }
{
    let weak = registered.weak_callbacks.ran();
    match weak.get(index) {
        Some(ran) => Line::WeakCall { k: ran.0, d: ran.1 },
        None => prefinalise_line(registered.prefinalizers.ran()[index - weak.len()]),
    }
}

/// The line of a prefinalizer: the number of its object and that of its callback.
fn prefinalise_line(ran: (u32, u32)) -> Line
    ensures { result ≡ L.Prefinalise ran.0 ran.1 }
{
    Line::Prefinalise { k: ran.0, c: ran.1 }
}
