// A turn of a generated script.

ghost use Rattle.std.specs.Prelude.{◌≡◌, ◌++◌, IfOk};
ghost use Rattle.script_generator.specs.Generated as spec;

use gc_graph::{Command, NoMemory, Want};

/// Appends turn `i`, which this number chooses.
pub(crate) fn add_turn(commands: &mut Vec<Command>, i: u32, number: u32) -> Result<(), NoMemory>
    ensures { IfOk result (λ _.
        commands.new.items ≡ commands.old.items ++ spec.turn_commands i number) }
{
    add_start(commands, i)?;
    match number % 3 {
        0 => add_child(commands, 0, i)?,
        1 => add_child(commands, 2, i)?,
        _ => add_entry(commands, i)?,
    }
    add_end(commands, i)
}

fn has_cycle(i: u32) -> bool
    ensures { result ≡ spec.has_cycle i }
{
    let is_late = i >= 4;
    is_late && i.is_power_of_two()
}

fn add_start(commands: &mut Vec<Command>, i: u32) -> Result<(), NoMemory>
    ensures { IfOk result (λ _.
        commands.new.items ≡ commands.old.items ++ spec.starting_commands i) }
{
    if has_cycle(i) {
        commands.extend_from_slice(&[Command::GcStart, Command::GcStep { n: 2 }])?;
    }
    Ok(())
}

fn add_end(commands: &mut Vec<Command>, i: u32) -> Result<(), NoMemory>
    ensures { IfOk result (λ _.
        commands.new.items ≡ commands.old.items ++ spec.ending_commands i) }
{
    if has_cycle(i) {
        commands.push(Command::GcFinish {
            want: Want::Precise,
        })?;
        add_collection(commands)?;
    }
    Ok(())
}

/// Appends a collection whose sweep is ended.
pub(crate) fn add_collection(commands: &mut Vec<Command>) -> Result<(), NoMemory>
    ensures { IfOk result (λ _.
        commands.new.items ≡ commands.old.items ++ spec.collection_commands) }
{
    let collection = [
        Command::GcNow {
            want: Want::Precise,
        },
        Command::SweepAll,
    ];
    commands.extend_from_slice(&collection)?;
    Ok(())
}

// Appends what makes element `i` the first child of slot `p`'s.
fn add_child(commands: &mut Vec<Command>, p: u32, i: u32) -> Result<(), NoMemory>
    ensures { IfOk result (λ _.
        commands.new.items ≡ commands.old.items ++ spec.child_commands p i) }
{
    let n = u64::from(i);
    let made = [
        Command::New { p: 1, t: 0, e: 0 },
        Command::Put { p: 1, f: 3, n },
        Command::Set { p: 1, f: 2, q: 0 },
        Command::Get { p, f: 0, q: 3 },
        Command::Set { p: 1, f: 1, q: 3 },
        Command::Set { p, f: 0, q: 1 },
        Command::Copy { p: 1, q: 2 },
        Command::Drop { p: 1 },
        Command::Drop { p: 3 },
    ];
    commands.extend_from_slice(&made)?;
    Ok(())
}

// Appends what makes an entry of the side table.
fn add_entry(commands: &mut Vec<Command>, i: u32) -> Result<(), NoMemory>
    ensures { IfOk result (λ _.
        commands.new.items ≡ commands.old.items ++ spec.entry_commands i) }
{
    let made = [
        Command::New { p: 1, t: 0, e: 0 },
        Command::New { p: 4, t: 1, e: 0 },
        Command::Set { p: 4, f: 0, q: 5 },
        Command::Copy { p: 4, q: 5 },
        Command::New { p: 6, t: 0, e: 0 },
        Command::Set { p: 6, f: 0, q: 1 },
        Command::Pair {
            p: 4,
            f: 1,
            k: 1,
            v: 6,
        },
        Command::Weak { w: i % 64, p: 1 },
        Command::Drop { p: 1 },
        Command::Drop { p: 4 },
        Command::Drop { p: 6 },
    ];
    commands.extend_from_slice(&made)?;
    Ok(())
}
