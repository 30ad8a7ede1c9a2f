// The script of a seed.

ghost use Rattle.std.specs.Prelude.{◌≡◌, [], ◌<◌, ◌≤◌, IfOk};
ghost use Rattle.script_generator.specs.Generated as spec;

use super::turns::{add_collection, add_turn};
use gc_graph::{Command, Kind, NoMemory};
use heap_script::Script;
use std::alloc::Global;
use type_table::TypeDecl;

/// When memory is wanting is free.
pub fn generate(alloc: Global, seed: u64, count: u32) -> Result<Script, NoMemory>
    requires some { 1 ≤ count }
    requires few { count ≤ 50000 }
    ensures { IfOk result (λ script. script ≡ spec.generated seed count) }
{
    let types = types(alloc)?;
    let commands = commands(alloc, seed, count)?;
    Ok(Script::from_parts(types, commands))
}

fn types(alloc: Global) -> Result<Vec<TypeDecl>, NoMemory>
    ensures { IfOk result (λ types. types.items ≡ spec.generated_types) }
{
    let element = [Kind::Strong, Kind::Strong, Kind::Weak, Kind::Plain];
    let table_entry = [Kind::Strong, Kind::Pair];
    let mut types = Vec::new(alloc);
    types.push(type_of(alloc, &element)?)?;
    types.push(type_of(alloc, &table_entry)?)?;
    Ok(types)
}

// A type with these fields, without prefinalizers and weak callbacks.
fn type_of(alloc: Global, kinds: &[Kind]) -> Result<TypeDecl, NoMemory>
    ensures { IfOk result (λ type. type ≡ record { kinds = kinds.now; prefinalizers = []; weak_callbacks = [] }) }
{
    let fields = Vec::from_slice(alloc, kinds)?;
    Ok(TypeDecl::new(fields, Vec::new(alloc), Vec::new(alloc)))
}

fn commands(alloc: Global, seed: u64, count: u32) -> Result<Vec<Command>, NoMemory>
    requires { count ≤ 50000 }
    ensures { IfOk result (λ commands. commands.items ≡ (spec.generated seed count).commands) }
{
    let mut commands = Vec::new(alloc);
    commands.extend_from_slice(&[
        Command::New { p: 0, t: 0, e: 0 },
        Command::Copy { p: 0, q: 2 },
    ])?;
    let mut number = (seed % 65_537) as u32;
    for before in 0..count {
        number = next_number(number);
        add_turn(&mut commands, before + 1, number)?;
    }
    add_collection(&mut commands)?;
    Ok(commands)
}

pub(crate) fn next_number(number: u32) -> u32
    requires { number < 65537 }
    ensures next { result ≡ spec.next_number number }
    ensures low { result < 65537 }
{
    (number * 75 + 74) % 65_537
}
