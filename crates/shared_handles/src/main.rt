//! # An object that another thread lets go
//!
//! What it is: a program of its own over the heap for programs. It shares an object, releases its own root,
//! takes a root from the shared one again, and gives the shared one back, which a thread then clears.
//!
//! The parts: `story`, in which that happens; `main`.
//!
//! What is proved: each call keeps to the heap's clauses, each root is released once, each shared root is
//! given back, and the heap is closed on every way.
//!
//! What is only tested or not said: what is printed, and that memory suffices.
#![tactic(auto)]

ghost use Rattle.std.specs.Prelude.{◌≡◌, length, IfOk};
ghost use Rattle.oilpan.specs.Objects.{HaveCallbacks};

mod story;

use anyhow::Result;
use oilpan::{CallbackTable, FreeGate, HeapOptions, Oilpan, TypeTable, Types};
use std::alloc::Global;
use std::sync::Arc;
use story::tell;

/// The type of notes.
fn declared(alloc: Global) -> Result<TypeTable>
    ensures { IfOk result (λ types. HaveCallbacks 0 types × (length types ≡ 1)) }
{
    let (types, _names) = Types::new(alloc).object("Note").word("number").done(0)?;
    Ok(types)
}

fn main(rt: HostRuntime) -> Result<()> {
    let types = declared(rt.alloc())?;
    let callbacks = CallbackTable::new(Vec::new(rt.alloc()));
    let gate = Arc::new(rt.alloc(), FreeGate)?;
    let options = HeapOptions {
        pages: 4,
        page_words: 256,
        markers: 0,
    };
    let mut heap = Oilpan::open(rt.alloc(), options, types, &callbacks, &gate)?;
    let told = tell(&mut heap, &rt);
    let left = heap.close(&rt);
    told?;
    Ok(println!(rt; "{} objects are left", left.objects)?)
}
