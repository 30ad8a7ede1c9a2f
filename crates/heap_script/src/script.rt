// A script, and how it is read.

ghost use Rattle.std.specs.Prelude.{◌≡◌, IfOk, IfErr};
ghost use Rattle.gc_graph.specs.Script.{IsScript};
ghost use Rattle.heap_script.specs.Scripts.{IsFaultOf};

use super::script_reader::read_lines;
use gc_graph::Command;
use std::alloc::Global;
use std::marker::Model;
use thiserror::Error;
use type_table::TypeDecl;

/// What a script says: its types, by number, and its commands.
#[derive(Drop)]
pub struct Script {
    types: Vec<TypeDecl>,
    commands: Vec<Command>,
}

impl Model for Script {
    ghost use Rattle.gc_graph.specs.Script as grammar;

    ghost Value = { grammar.Script };

    ghost view = { λ s. record { types = s.types.items; commands = s.commands.items } };
}

impl Script {
    /// A script that says this, read from no bytes. Tests no range.
    pub fn from_parts(types: Vec<TypeDecl>, commands: Vec<Command>) -> Script
        ensures types { result.types ≡ types.items }
        ensures commands { result.commands ≡ commands.items }
    {
        Script { types, commands }
    }

    /// The types in the order of their lines.
    pub fn types(&self) -> &[TypeDecl]
        ensures { result.now ≡ self.now.types }
    {
        self.types.as_slice()
    }

    /// The commands in the order of their lines.
    pub fn commands(&self) -> &[Command]
        ensures { result.now ≡ self.now.commands }
    {
        self.commands.as_slice()
    }

    /// The types and the commands, in the order of their lines.
    pub fn into_parts(self) -> (Vec<TypeDecl>, Vec<Command>)
        ensures types { result.0.items ≡ self.types }
        ensures commands { result.1.items ≡ self.commands }
    {
        (self.types, self.commands)
    }
}

/// Why a script was not read. Lines are counted from 1; a missing first line counts as one.
///
/// | reason | what is wrong |
/// |---|---|
/// | 0 | memory was wanting |
/// | 1 | the first line isn't the header |
/// | 2 | a word is none of those that may stand there |
/// | 3 | a word is no number where one should be |
/// | 4 | there are fewer or more words than the form has |
/// | 5 | a number is out of its range, or there are too many letters, callbacks, words or types |
/// | 6 | a type line comes after a command |
/// | 7 | the threads' orders don't stand between each other as they should |
/// | 8 | there are over 16,777,216 bytes or over 1,000,000 lines; the line is then 0 |
#[derive(Debug, Drop, Error)]
#[error("line {line}: reason {reason}")]
pub struct ScriptFault {
    pub line: u32,
    pub reason: u32,
}

/// The script that the bytes are, with so many callbacks, or the first faulty line with the lowest
/// reason that it has. When memory is wanting is free.
pub fn read_script(alloc: Global, bytes: &[u8], callbacks: u32) -> Result<Script, ScriptFault>
    ensures script { IfOk result (IsScript callbacks bytes.now) }
    ensures fault { IfErr result (IsFaultOf callbacks bytes.now) }
{
    match read_lines(alloc, bytes, callbacks) {
        Ok(kept) => Ok(Script {
            types: kept.types,
            commands: kept.commands,
        }),
        Err(fault) => Err(fault),
    }
}
