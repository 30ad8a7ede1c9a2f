//! # A tree that is edited while it is collected
//!
//! What it is: a program of its own over the heap for programs. Elements name the editor, and a prefinalizer
//! counts there the elements that are torn down. What is in the margin is unlinked. Then a collection goes on
//! in steps, while an element moves to the margin and a new one takes its place.
//!
//! The parts: `main`, which declares types and a prefinalizer, and opens and closes the heap; `Editor`, whose
//! calls grow, edit and collect the tree; `tell`.
//!
//! What is proved: what the heap's calls want holds at each of them. A root that is used holds its object.
//! What is held is given back on every way, errors among them, since it isn't `Drop`. The prefinalizer
//! answers what its kind says.
//!
//! What is only tested or not said: what is printed, and that memory suffices.
#![tactic(auto)]

ghost use Rattle.std.specs.Prelude.{◌≡◌};

mod editor;

use anyhow::Result;
use editor::{OBSERVER, TORN_DOWN, tell};
use oilpan::{Action, ActionKind, Callback, CallbackTable, FreeGate, HeapOptions, Oilpan, Types};
use std::sync::Arc;

/// The observer of an element that is torn down counts one more.
fn count(_words: &[u64]) -> Action
    ensures { result ≡ Action.Add OBSERVER TORN_DOWN 1 }
{
    Action::Add {
        link: OBSERVER,
        field: TORN_DOWN,
        amount: 1,
    }
}

fn main(rt: HostRuntime) -> Result<()> {
    let alloc = rt.alloc();
    let (types, _names) = Types::new(alloc)
        .object("Editor")
        .strong("page")
        .strong("margin")
        .word("torn down")
        .object("Element")
        .strong("child")
        .strong("next")
        .strong("observer")
        .prefinalizer(0)
        .done(1)?;
    let kind = ActionKind::Add {
        link: OBSERVER,
        field: TORN_DOWN,
        amount: 1,
    };
    let list = vec![in alloc; Callback::new(kind, Box::new(alloc, count)?)]?;
    let callbacks = CallbackTable::new(list);
    let gate = Arc::new(alloc, FreeGate)?;
    let options = HeapOptions {
        pages: 4,
        page_words: 256,
        markers: 0,
    };
    let mut heap = Oilpan::open(alloc, options, types, &callbacks, &gate)?;
    let told = tell(&mut heap, rt);
    let left = heap.close(&rt);
    told?;
    Ok(println!(rt; "{} objects were not finalised", left.objects)?)
}
