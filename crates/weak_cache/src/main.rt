//! # A cache whose entries die with their keys
//!
//! What it is: a program of its own over the heap for programs. A cache has the layouts of three documents.
//! The documents are let go one after the other, and each time the program tells what the cache still has.
//!
//! The parts: `main`, which opens and closes the heap; `WeakCache`, an object whose fields are pairs; `tell`.
//!
//! What is proved: what the heap's calls want holds at each of them. A root that is used holds its object.
//! What is held is given back on every way, errors among them, since it isn't `Drop`.
//!
//! What is only tested or not said: what is printed, and that memory suffices.
#![tactic(auto)]

ghost use Rattle.std.specs.Prelude.{◌≡◌, length, IfOk};
ghost use Rattle.oilpan.specs.Objects.{HaveCallbacks};

mod cache;
mod story;

use anyhow::Result;
use oilpan::{CallbackTable, FreeGate, HeapOptions, Oilpan, TypeTable, Types};
use std::alloc::Global;
use std::sync::Arc;
use story::tell;

/// The types of the cache, of documents and of layouts, in this order.
fn declared(alloc: Global) -> Result<TypeTable>
    ensures { IfOk result (λ types. HaveCallbacks 0 types × (length types ≡ 3)) }
{
    let (types, _names) = Types::new(alloc)
        .object("Cache")
        .pair("0")
        .pair("1")
        .pair("2")
        .object("Document")
        .object("Layout")
        .word("height")
        .done(0)?;
    Ok(types)
}

fn main(rt: HostRuntime) -> Result<()> {
    let types = declared(rt.alloc())?;
    let callbacks = CallbackTable::new(Vec::new(rt.alloc()));
    let gate = Arc::new(rt.alloc(), FreeGate)?;
    let options = HeapOptions {
        pages: 4,
        page_words: 256,
        markers: 0,
    };
    let mut heap = Oilpan::open(rt.alloc(), options, types, &callbacks, &gate)?;
    let told = tell(&mut heap, rt);
    let left = heap.close(&rt);
    told?;
    Ok(println!(rt; "{} objects were not finalised", left.objects)?)
}
