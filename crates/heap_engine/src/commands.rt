// Which function does a command. Each ends the outcome itself, since a line that is answered here would
// have its place on the stack made anew for every command.

ghost use Rattle.std.specs.Prelude.{◌≡◌, length};
ghost use Rattle.gc_graph.specs.Lawful.{IsAllowed};
ghost use Rattle.gc_graph.specs.Sections.{IsInSection};
ghost use Rattle.callback_table.specs.Table.{callback_kinds};
ghost use Rattle.heap_engine.specs.Acted.{HasNumber};
ghost use Rattle.heap_engine.specs.CarriedOut.{IsAsked, IsCommandDone};

use crate::creating::new_object;
use crate::cycles::{collect, finish, start, step, sweep_all, sweep_some};
use crate::fields::{get, put, set, set_null, word};
use crate::pairs::{key, pair, pair_null, value};
use crate::region::{export, import};
use crate::slots::{copy, drop_slot, read, weaken};
use crate::stacking::{peek, pop, push, push_plain};
use crate::threads::{at, go, join};
use crate::totals::stat;
use callback_table::CallbackTable;
use gc_graph::Command;
use heap_cycle::{Gate, Outcome, Parts};
use std::sync::{Arc, Wait};
use std::thread::Threads;

/// Does the command, and ends its outcome.
pub(crate) fn run<R: Threads + Wait + Copy + Send + 'static, G: Gate + Send + Sync + 'static>(
    rt: &R,
    parts: &mut Parts,
    outcome: &mut Outcome,
    callbacks: &CallbackTable,
    gate: &Arc<G>,
    command: &Command,
)
    requires asked { IsAsked parts.old outcome.old }
    requires kinds { callback_kinds callbacks.now ≡ parts.old.objects.callbacks }
    requires allowed { IsAllowed (length parts.old.objects.types) command.now }
    requires section { IsInSection parts.old.region.awaiting command.now }
    requires numbered { HasNumber parts.old.objects.nodes command.now }
    ensures done { IsCommandDone command.now parts.old parts.new outcome.old outcome.new }
{
    match *command {
        Command::New { p, t, e } => new_object(parts, outcome, p, t, e),
        Command::Set { p, f, q } => set(parts, outcome, p, f, q),
        Command::SetNull { p, f } => set_null(parts, outcome, p, f),
        Command::Pair { p, f, k, v } => pair(parts, outcome, p, f, k, v),
        Command::PairNull { p, f } => pair_null(parts, outcome, p, f),
        Command::Put { p, f, n } => put(parts, outcome, p, f, n),
        Command::Word { p, f } => word(parts, outcome, p, f),
        Command::Get { p, f, q } => get(parts, outcome, p, f, q),
        Command::Key { p, f, q } => key(parts, outcome, p, f, q),
        Command::Val { p, f, q } => value(parts, outcome, p, f, q),
        Command::Copy { p, q } => copy(parts, outcome, p, q),
        Command::Drop { p } => drop_slot(parts, outcome, p),
        Command::Weak { w, p } => weaken(parts, outcome, w, p),
        Command::Read { w, p } => read(parts, outcome, w, p),
        Command::Push { p, o } => push(parts, outcome, p, o),
        Command::PushPlain { n } => push_plain(parts, outcome, n),
        Command::Pop => pop(parts, outcome),
        Command::Peek { i, q } => peek(parts, outcome, i, q),
        Command::GcStart => start(rt, parts, outcome, gate),
        Command::GcStep { n } => step(parts, outcome, n),
        Command::GcFinish { want } => finish(rt, parts, outcome, callbacks, want),
        Command::GcNow { want } => collect(rt, parts, outcome, callbacks, want),
        Command::Sweep { n } => sweep_some(parts, outcome, n),
        Command::SweepAll => sweep_all(parts, outcome),
        Command::Stat => stat(parts, outcome),
        Command::Export { p, x } => export(rt, parts, outcome, p, x),
        Command::Import { x, p } => import(rt, parts, outcome, x, p),
        Command::At { j, order } => at(parts, outcome, j, order),
        Command::ThreadsGo => go(rt, parts, outcome, gate),
        Command::ThreadsJoin => join(rt, parts, outcome),
    }
}
