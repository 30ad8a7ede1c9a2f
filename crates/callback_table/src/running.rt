// Running the prefinalizers of dead objects.

ghost use Rattle.std.specs.Prelude.{◌≡◌, ◌<◌, [], ◌∷◌, All, length, if◌then◌else◌};
ghost use Rattle.gc_graph.specs.Pause.{dies, run_order, prefinalised};
ghost use Rattle.callback_table.specs.Bodies.{StandsAt};
ghost use Rattle.callback_table.specs.Registry.{IsRegistered, registration_of, registrations_of};
ghost use Rattle.callback_table.specs.Registry.{pairs_run, entries_left};
ghost use Rattle.callback_table.specs.Table.{callback_kinds};

use crate::bodies::Bodies;
use crate::masked::run;
use crate::registry::{Registered, Registry};
use crate::table::CallbackTable;

impl Registry {
    /// Runs the registrations of dead objects, from the last that was made to the first, and takes
    /// them away. Takes no memory, and looks at each registration once.
    pub fn run_dead<B: Bodies>(&mut self, table: &CallbackTable, bodies: &mut B)
        requires ready { B.is_ready bodies.old }
        requires registered { All (IsRegistered (B.nodes bodies.old)
            (length (callback_kinds table.now))) self.old.entries }
        ensures nodes { B.nodes bodies.new ≡ prefinalised (callback_kinds table.now)
            (run_order (B.nodes bodies.old) (registrations_of self.old.entries))
            (B.nodes bodies.old) }
        ensures ran { self.new.ran ≡ pairs_run (B.nodes bodies.old) self.old.entries }
        ensures left { self.new.entries ≡ entries_left (B.nodes bodies.old) self.old.entries }
        ensures ready { B.is_ready bodies.new }
        ensures rest { B.keeps bodies.old bodies.new }
    {
        self.ran.clear();
        // The words that each call is shown, in one place for all.
        let mut shown = [0; 64];
        let mut kept = self.entries.len();
        for i in (0..self.entries.len()).rev() {
            let entry = self.entries[i];
            if run_if_dead(entry, table, bodies, &mut shown) {
                self.ran.push_reserved((entry.node, entry.callback));
            } else {
                // What is kept stands at the end, from `kept` on.
                kept -= 1;
                self.entries[kept] = entry;
            }
        }
        self.entries.drain(..kept);
    }
}

/// Whether the registered node is dead; if so its callback was run.
fn run_if_dead<B: Bodies>(
    entry: Registered,
    table: &CallbackTable,
    bodies: &mut B,
    shown: &mut [u64; 64],
) -> bool
    requires ready { B.is_ready bodies.old }
    requires registered { IsRegistered (B.nodes bodies.old)
        (length (callback_kinds table.now)) entry }
    ensures answer { result ≡ dies (B.nodes bodies.old) (registration_of entry) }
    ensures nodes { B.nodes bodies.new ≡ (if result
        then prefinalised (callback_kinds table.now)
        (registration_of entry ∷ []) (B.nodes bodies.old)
        else B.nodes bodies.old) }
    ensures ready { B.is_ready bodies.new }
    ensures rest { B.keeps bodies.old bodies.new }
{
    let dead = bodies.dead(entry.place);
    if dead {
        run(entry, 0, table, bodies, shown);
    }
    dead
}
