//! # A heap for programs
//!
//! What it is: the heap as a program embeds it. `Oilpan` makes objects, writes and reads their fields,
//! and collects; what a program holds of its objects are roots, weak roots and shared roots. None of these
//! is `Drop`: a root is released, and a heap closed, before it goes.
//!
//! The parts: `Types`, `BegunObject` and `Names` (the types of objects by chained calls, and the numbers
//! of their names), `Oilpan`, `HeapOptions`, the handles `Root`, `WeakRoot` and `SharedRoot`, what calls
//! tell (`Stepped`, `Totals`), and the errors. Within, `Gathered` is a list that tells at its end that
//! memory was wanting. A call belongs to the thread that has the heap; markers and the pause are its own
//! affair.
//!
//! | when | calls |
//! |---|---|
//! | first | `Types::new` to `done`, `open` |
//! | then, in any order | `make`, `set`, `get` and the others on fields; `weak`, `upgrade`; `release`, `release_weak` |
//! | | `share`, `root_of`, `release_shared`; `clear_released` |
//! | | `collect`, or `start`, `step` and `finish`; `sweep`; `totals`, `finalised` |
//! | at last | `close` |
//!
//! 256 roots, 64 weak roots and 32 shared roots can be given out at a time. A shared root that was given
//! back keeps its object until `clear_released`, in which a thread of its own, thread 1, clears the slot by
//! an entry of the region's history, and is joined. `Memory` means that the allocator gave none, and
//! that nothing has changed: `make` says it for types with prefinalizers alone, and `collect` and `start`
//! at their beginning. A heap does 2^64 - 1 commands. A caller has it that some are left (`HasRoom`) from the
//! clause `ordinal` of the call before, or asks `commands_left`.
//!
//! An object that a collection condemns is gone for `upgrade` from then on, and is finalised, counted as such
//! and told by `finalised`, when its page is swept. Its words besides the fields, `extra`, are plain.
//! `CallbackTable::new` takes the callbacks in a `Vec`, none of them for types without prefinalizers;
//! markers pass the gate, and `FreeGate`, in an `Arc`, holds nobody. A function that holds a root keeps each
//! `Result` until the root is released, and uses `?` then.
//!
//! In `crates.txt` a program's line names `oilpan`, and `anyhow` if its errors are to be one. Its
//! clauses need `Rattle.oilpan.specs.Handles.{HasRoom, Holds, Shares, Watches}`, and for what `open` wants
//! `Rattle.oilpan.specs.Objects.{HaveCallbacks}`. A clause may speak of all that a heap is known by, its `core`
//! (`Rattle.oilpan.specs.View.{View}`); what a function that makes calls keeps is one of
//! `Rattle.oilpan.specs.Frame.{Takes, Keeps, KeepsOthers}`. `rt` is what `main` is handed. A function that
//! takes it has the bounds `R: Threads + Wait + Copy + Send + 'static`, of `std::thread` and `std::sync`, and
//! the file `HANDLES` allows both.
//!
//! What is proved: each call does one command of `heap_engine`, and `collect` at most two; what it answers
//! and what it changes is what `gc_graph` says of that command. A root that holds goes on to hold, through
//! every call but its own release, and no call gives it out again; what it holds lives. `get` and the reads of
//! pairs give the node that the field names. A weak root upgrades just where its node lives. A shared root
//! keeps its node until it is given back, and its slot is null once `clear_released` is Ok. A field is
//! refused just where the object lacks it, or it is of another kind; a collection is where its phase is
//! another. A table of types has exactly what was declared, in its order, and a name the number at which it
//! was declared first.
//!
//! What is only tested or not said: that memory suffices, and how long a call takes. A weak slot that was
//! given back goes on to name what it did until it is given out again.
#![tactic(auto)]

mod asking;
mod clearing;
mod cycles;
mod declaring;
mod errors;
mod fields;
mod flags;
mod gathered;
mod handles;
mod heap;
mod names;
mod options;
mod pairs;
mod reading;
mod roots;
mod shared;
mod sharing;
mod sweeping;
mod told;
mod types;
mod types_errors;
mod weak;
mod words;

pub use callback_table::{Action, ActionKind, Callback, CallbackTable};
pub use errors::{
    FieldError, GetError, HandleError, MakeError, NotMarking, NotSweeping, ShareError, StartError,
};
pub use gc_graph::NoMemory;
pub use handles::{Root, SharedRoot, WeakRoot};
pub use heap::Oilpan;
pub use heap_engine::{FreeGate, Gate};
pub use names::Names;
pub use options::HeapOptions;
pub use told::{Stepped, Totals};
pub use type_table::TypeTable;
pub use types::{BegunObject, Types};
pub use types_errors::TypesError;
