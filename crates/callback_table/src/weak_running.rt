// Running the weak callbacks of objects of which a weak field is cleared.

ghost use Rattle.std.specs.Prelude.{◌≡◌, ◌<◌, ◌≤◌, ◌+◌, ◌++◌, All, length, map, vec_capacity};
ghost use Rattle.gc_graph.specs.WeakCalls.{called};
ghost use Rattle.callback_table.specs.Table.{callback_kinds};
ghost use Rattle.callback_table.specs.WeakRegistry.{IsWeaklyRegistered, weak_registration_of};
ghost use Rattle.callback_table.specs.WeakRegistry.{calls_of, calls_in_order, pairs_called, pair_called};

use crate::bodies::Bodies;
use crate::masked::run;
use crate::registry::Registered;
use crate::table::CallbackTable;
use crate::weak_registry::{WeakRegistered, WeakRegistry};

impl WeakRegistry {
    /// Runs the callbacks of the registrations whose mask isn't 0, in their order. Each is shown 2 in
    /// place of the words at the mask's bits. All stay registered. Takes no memory.
    pub fn run<B: Bodies>(&mut self, table: &CallbackTable, bodies: &mut B)
        requires ready { B.is_ready bodies.old }
        requires registered { All (IsWeaklyRegistered (B.nodes bodies.old)
            (length (callback_kinds table.now))) self.old.entries }
        ensures nodes { B.nodes bodies.new ≡ called (callback_kinds table.now)
            (calls_in_order self.old.entries) (B.nodes bodies.old) }
        ensures ran { self.new.ran ≡ pairs_called self.old.entries }
        ensures entries { self.new.entries ≡ self.old.entries }
        ensures ready { B.is_ready bodies.new }
        ensures rest { B.keeps bodies.old bodies.new }
    {
        self.ran.clear();
        // The words that each call is shown, in one place for all.
        let mut shown = [0; 64];
        for i in 0..self.entries.len() {
            run_masked(&self.entries[i], table, bodies, &mut shown, &mut self.ran);
        }
    }
}

/// Runs each callback of a registration whose mask isn't 0. There is room for it in what ran.
fn run_masked<B: Bodies>(
    entry: &WeakRegistered,
    table: &CallbackTable,
    bodies: &mut B,
    shown: &mut [u64; 64],
    ran: &mut Vec<(u32, u32)>,
)
    requires ready { B.is_ready bodies.old }
    requires registered { IsWeaklyRegistered (B.nodes bodies.old)
        (length (callback_kinds table.now)) (weak_registration_of entry.now) }
    requires room { length ran.old.items + length entry.now.callbacks.items
        ≤ vec_capacity ran.old }
    ensures nodes { B.nodes bodies.new ≡ called (callback_kinds table.now)
        (calls_of (weak_registration_of entry.now)) (B.nodes bodies.old) }
    ensures ran { ran.new.items ≡ ran.old.items
        ++ map pair_called (calls_of (weak_registration_of entry.now)) }
    ensures capacity { vec_capacity ran.new ≡ vec_capacity ran.old }
    ensures ready { B.is_ready bodies.new }
    ensures rest { B.keeps bodies.old bodies.new }
{
    if entry.mask == 0 {
        return;
    }
    for callback in &entry.callbacks {
        let call = Registered {
            node: entry.node,
            place: entry.place,
            callback: *callback,
        };
        run(call, entry.mask, table, bodies, shown);
        ran.push_reserved((call.node, call.callback));
    }
}
