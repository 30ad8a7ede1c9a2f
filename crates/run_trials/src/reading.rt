// What a script says, by hand from the grammar.

use gc_graph::{Command, Kind, Order, Want};
use heap_script::{ListSource, Script, read_script, read_whole};
use std::alloc::{AllocError, Global};
use std::fmt::Write;

const SCRIPT: &str = "oilpan 2\n\ntype S\n\ntype - pre 0 0\ntype SWEP weak 0\n\
type P pre 0 weak 0 0\nnew 0 0\nset  0 3 255\n\
 set 0 67108863 -\npair 1 2 3 4\npair 1 2 - -\nput 1 2 18446744073709551615\npush# 7\n\
gc now conservative\nsweep 3\nat 8 copy 31 0\nthreads go\nthreads join\nnew 1 2 33554432";

// The fields of each type, its callbacks and its weak ones; then each command with four numbers, as
// `said_by` has them.
const SAID: &str = "\
type Strong weak
type 0 0 weak
type Strong Weak Pair Plain weak 0
type Plain 0 weak 0 0
New 0 0 0 0
Set 0 3 255 0
SetNull 0 67108863 0 0
Pair 1 2 3 4
PairNull 1 2 0 0
Put 1 2 0 18446744073709551615
PushPlain 0 0 0 7
GcNow Conservative 0 0 0 0
Sweep 3 0 0 0
At Copy 8 31 0 0
ThreadsGo 0 0 0 0
ThreadsJoin 0 0 0 0
New 1 2 33554432 0
";

/// The name of a command and its numbers in their order, of which the last may be any word. One that
/// it doesn't have is 0.
#[derive(Clone, Copy, Drop)]
struct Said {
    name: &'static str,
    numbers: [u32; 3],
    word: u64,
}

fn make_said(name: &'static str, numbers: [u32; 3], word: u64) -> Said {
    Said {
        name,
        numbers,
        word,
    }
}

fn said_by(command: &Command) -> Said {
    match *command {
        Command::New { p, t, e } => make_said("New", [p, t, e], 0),
        Command::Set { p, f, q } => make_said("Set", [p, f, q], 0),
        Command::SetNull { p, f } => make_said("SetNull", [p, f, 0], 0),
        Command::Pair { p, f, k, v } => make_said("Pair", [p, f, k], u64::from(v)),
        Command::PairNull { p, f } => make_said("PairNull", [p, f, 0], 0),
        Command::Put { p, f, n } => make_said("Put", [p, f, 0], n),
        Command::PushPlain { n } => make_said("PushPlain", [0, 0, 0], n),
        Command::GcNow {
            want: Want::Conservative,
        } => make_said("GcNow Conservative", [0, 0, 0], 0),
        Command::Sweep { n } => make_said("Sweep", [n, 0, 0], 0),
        Command::At {
            j,
            order: Order::Copy { from, into },
        } => make_said("At Copy", [j, from, into], 0),
        Command::ThreadsGo => make_said("ThreadsGo", [0, 0, 0], 0),
        Command::ThreadsJoin => make_said("ThreadsJoin", [0, 0, 0], 0),
        _ => make_said("another", [0, 0, 0], 0),
    }
}

#[test]
fn script_in_pieces_is_read(rt: HostRuntime) {
    assert!(rt; is_read_by_sevens(rt.alloc()));
}

fn is_read_by_sevens(alloc: Global) -> bool {
    match Vec::from_slice(alloc, SCRIPT.as_bytes()) {
        Ok(given) => gives_script(alloc, &mut ListSource::new(given, 7, Vec::new(alloc))),
        Err(_) => false,
    }
}

fn gives_script(alloc: Global, source: &mut ListSource) -> bool {
    match read_whole(alloc, source, 1000) {
        Ok(bytes) => bytes.as_slice() == SCRIPT.as_bytes() && is_said_by(alloc, &bytes),
        Err(_) => false,
    }
}

fn is_said_by(alloc: Global, bytes: &[u8]) -> bool {
    match read_script(alloc, bytes, 1) {
        Ok(script) => says_all(alloc, &script),
        Err(_) => false,
    }
}

fn says_all(alloc: Global, script: &Script) -> bool {
    let mut text = String::new(alloc);
    add_types(&mut text, script).is_ok()
        && add_commands(&mut text, script.commands()).is_ok()
        && text.as_str() == SAID
}

fn add_types(text: &mut String, script: &Script) -> Result<(), AllocError> {
    for decl in script.types() {
        text.push_str("type")?;
        add_fields(text, decl.fields())?;
        add_callbacks(text, decl.callbacks())?;
        text.push_str(" weak")?;
        add_callbacks(text, decl.weak())?;
        text.push_str("\n")?;
    }
    Ok(())
}

fn add_fields(text: &mut String, fields: &[Kind]) -> Result<(), AllocError> {
    for kind in fields {
        text.push_str(match *kind {
            Kind::Strong => " Strong",
            Kind::Weak => " Weak",
            Kind::Pair => " Pair",
            Kind::Plain => " Plain",
        })?;
    }
    Ok(())
}

fn add_callbacks(text: &mut String, callbacks: &[u32]) -> Result<(), AllocError> {
    for callback in callbacks {
        write!(text, " {callback}")?;
    }
    Ok(())
}

fn add_commands(text: &mut String, commands: &[Command]) -> Result<(), AllocError> {
    for command in commands {
        let Said {
            name,
            numbers: [first, second, third],
            word,
        } = said_by(command);
        write!(text, "{name} {first} {second} {third} {word}\n")?;
    }
    Ok(())
}
