// The forms whose numbers have 32 bits, and the command that the numbers of a line make.

ghost use Rattle.std.specs.Prelude.{◌≡◌, ◌==◌, ◌∷◌, [], ◌++◌, Some, None, if◌then◌else◌};
ghost use Rattle.gc_graph.specs.Forms as spec;
ghost use Rattle.command_text.specs.Rows.{bare_command_of, one_command_of, order_command_of, small_command_of, three_command_of, two_command_of};
ghost use Rattle.command_text.specs.Said.{list_of};

use super::said::Said;
use gc_graph::{Command, Order, Want};

/// The command that the numbers of a line make, where each has 32 bits: one that has no numbers, or
/// one, two or three as they are. The other forms take them in a way of their own.
#[derive(Clone, Copy)]
pub(crate) enum SmallForm {
    Bare(BareForm),
    One(OneForm),
    Two(TwoForm),
    Three(ThreeForm),
    New,
    Set,
    Pair,
    Threads,
    GcFinish,
    GcNow,
    At(OrderForm),
}

/// A command with no number.
#[derive(Clone, Copy)]
pub(crate) enum BareForm {
    Pop,
    Stat,
    GcStart,
}

/// A command with one number.
#[derive(Clone, Copy)]
pub(crate) enum OneForm {
    Drop,
    GcStep,
}

/// A command with two numbers.
#[derive(Clone, Copy)]
pub(crate) enum TwoForm {
    Word,
    Copy,
    Weak,
    Read,
    Push,
    Peek,
    Export,
    Import,
}

/// A command with three numbers.
#[derive(Clone, Copy)]
pub(crate) enum ThreeForm {
    Get,
    Key,
    Val,
}

/// The order for a thread that the numbers after the thread make.
#[derive(Clone, Copy)]
pub(crate) enum OrderForm {
    Copy,
    Clear,
    Weaken,
    Upgrade,
    Totals,
}

#[tactic(auto, using(crate::proofs::Shapes::shapes))]
#[inline(always)]
pub(crate) fn small_command(form: SmallForm, said: Said) -> Option<Command>
    ensures { result ≡ small_command_of form (list_of said) }
{
    let (count, a, b, c) = (said.count, said.a, said.b, said.c);
    match form {
        SmallForm::Bare(form) => when(count == 0, bare_command(form)),
        SmallForm::One(form) => when(count == 1, one_command(form, a)),
        SmallForm::Two(form) => when(count == 2, two_command(form, a, b)),
        SmallForm::Three(form) => when(count == 3, three_command(form, a, b, c)),
        SmallForm::New => new_command(said),
        SmallForm::Set => set_command(said),
        SmallForm::Pair => pair_command(said),
        SmallForm::Threads => threads_command(said),
        SmallForm::GcFinish => finish_command(said),
        SmallForm::GcNow => now_command(said),
        SmallForm::At(form) => order_command(form, said),
    }
}

#[inline(always)]
fn bare_command(form: BareForm) -> Command
    ensures { result ≡ bare_command_of form }
{
    match form {
        BareForm::Pop => Command::Pop,
        BareForm::Stat => Command::Stat,
        BareForm::GcStart => Command::GcStart,
    }
}

#[inline(always)]
fn one_command(form: OneForm, a: u32) -> Command
    ensures { result ≡ one_command_of form a }
{
    match form {
        OneForm::Drop => Command::Drop { p: a },
        OneForm::GcStep => Command::GcStep { n: a },
    }
}

#[inline(always)]
fn two_command(form: TwoForm, a: u32, b: u32) -> Command
    ensures { result ≡ two_command_of form a b }
{
    match form {
        TwoForm::Word => Command::Word { p: a, f: b },
        TwoForm::Copy => Command::Copy { p: a, q: b },
        TwoForm::Weak => Command::Weak { w: a, p: b },
        TwoForm::Read => Command::Read { w: a, p: b },
        TwoForm::Push => Command::Push { p: a, o: b },
        TwoForm::Peek => Command::Peek { i: a, q: b },
        TwoForm::Export => Command::Export { p: a, x: b },
        TwoForm::Import => Command::Import { x: a, p: b },
    }
}

#[inline(always)]
fn three_command(form: ThreeForm, a: u32, b: u32, c: u32) -> Command
    ensures { result ≡ three_command_of form a b c }
{
    match form {
        ThreeForm::Get => Command::Get { p: a, f: b, q: c },
        ThreeForm::Key => Command::Key { p: a, f: b, q: c },
        ThreeForm::Val => Command::Val { p: a, f: b, q: c },
    }
}

#[tactic(auto, using(crate::proofs::Shapes::shapes))]
fn order_command(form: OrderForm, said: Said) -> Option<Command>
    ensures { result ≡ order_command_of form (list_of said) }
{
    let (count, j, x, y) = (said.count, said.a, said.b, said.c);
    match form {
        OrderForm::Copy => when(
            count == 3,
            Command::At {
                j,
                order: Order::Copy { from: x, into: y },
            },
        ),
        OrderForm::Clear => when(
            count == 2,
            Command::At {
                j,
                order: Order::Clear { slot: x },
            },
        ),
        OrderForm::Weaken => when(
            count == 2,
            Command::At {
                j,
                order: Order::Weaken { slot: x },
            },
        ),
        OrderForm::Upgrade => when(
            count == 3,
            Command::At {
                j,
                order: Order::Upgrade { from: x, into: y },
            },
        ),
        OrderForm::Totals => when(
            count == 1,
            Command::At {
                j,
                order: Order::Totals,
            },
        ),
    }
}

#[inline(always)]
pub(crate) fn when(test: bool, command: Command) -> Option<Command>
    ensures { result ≡ (if test then Some command else None) }
{
    if test { Some(command) } else { None }
}

#[tactic(auto, using(crate::proofs::Shapes::shapes))]
fn threads_command(said: Said) -> Option<Command>
    ensures { result ≡ spec.threads_command (list_of said) }
{
    if said.count != 1 {
        return None;
    }
    match said.a {
        0 => Some(Command::ThreadsGo),
        _ => Some(Command::ThreadsJoin),
    }
}

#[tactic(auto, using(crate::proofs::Shapes::shapes))]
fn finish_command(said: Said) -> Option<Command>
    ensures { result ≡ spec.by_want (λ w. Command.GcFinish w) (list_of said) }
{
    if said.count != 1 {
        return None;
    }
    match said.a {
        0 => Some(Command::GcFinish {
            want: Want::Precise,
        }),
        _ => Some(Command::GcFinish {
            want: Want::Conservative,
        }),
    }
}

#[tactic(auto, using(crate::proofs::Shapes::shapes))]
fn now_command(said: Said) -> Option<Command>
    ensures { result ≡ spec.by_want (λ w. Command.GcNow w) (list_of said) }
{
    if said.count != 1 {
        return None;
    }
    match said.a {
        0 => Some(Command::GcNow {
            want: Want::Precise,
        }),
        _ => Some(Command::GcNow {
            want: Want::Conservative,
        }),
    }
}

#[tactic(auto, using(crate::proofs::Shapes::shapes))]
#[inline(always)]
fn new_command(said: Said) -> Option<Command>
    ensures { result ≡ spec.new_command (list_of said) }
{
    match said.count {
        2 => Some(Command::New {
            p: said.a,
            t: said.b,
            e: 0,
        }),
        3 => Some(Command::New {
            p: said.a,
            t: said.b,
            e: said.c,
        }),
        _ => None,
    }
}

#[tactic(auto, using(crate::proofs::Shapes::shapes))]
#[inline(always)]
fn set_command(said: Said) -> Option<Command>
    ensures { result ≡ spec.set_command (list_of said) }
{
    if said.count != 3 {
        return None;
    }
    match said.c {
        0 => Some(Command::SetNull {
            p: said.a,
            f: said.b,
        }),
        _ => Some(Command::Set {
            p: said.a,
            f: said.b,
            q: said.c - 1,
        }),
    }
}

#[tactic(auto, using(crate::proofs::Shapes::shapes))]
fn pair_command(said: Said) -> Option<Command>
    ensures { result ≡ spec.pair_command (list_of said) }
{
    if said.count != 4 {
        return None;
    }
    match (said.c, said.d) {
        (0, 0) => Some(Command::PairNull {
            p: said.a,
            f: said.b,
        }),
        (0, _) => None,
        (_, 0) => None,
        (k, v) => Some(Command::Pair {
            p: said.a,
            f: said.b,
            k: k - 1,
            v: v - 1,
        }),
    }
}
