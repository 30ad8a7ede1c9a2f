// The registrations of prefinalizers (`CPPGC_USING_PRE_FINALIZER`, `include/cppgc/prefinalizer.h`).

ghost use Rattle.std.specs.Prelude.{◌≡◌, ◌-◌, ◌+◌, ◌≤◌, [], ◌++◌, OnOk, OnErr, length, map, take, drop};
ghost use Rattle.std.specs.Prelude.{vec_capacity};
ghost use Rattle.callback_table.specs.Registry.{RegistryView, registered, placed_at};

use gc_graph::NoMemory;
use std::alloc::Global;
use std::marker::Model;

/// A callback that is to run when the node at the place dies.
#[derive(Clone, Copy, Drop)]
pub struct Registered {
    pub node: u32,
    pub place: u32,
    pub callback: u32,
}

/// Registrations in the order in which they were made, and what was run last.
#[derive(Drop)]
pub struct Registry {
    pub(crate) entries: Vec<Registered>,
    pub(crate) ran: Vec<(u32, u32)>,
}

impl Model for Registry {
    ghost use Rattle.std.specs.Prelude.{◌≤◌, length, vec_capacity};
    ghost use Rattle.callback_table.specs.Registry.{RegistryView};

    ghost Value = { RegistryView };

    ghost view = { λ r. record { entries = r.entries.items; ran = r.ran.items } };

    ghost invariant = { λ r. length r.entries.items ≤ vec_capacity r.ran };
}

impl Registry {
    /// No registrations. Takes no memory.
    pub fn new(alloc: Global) -> Registry
        ensures { result ≡ record { entries = []; ran = [] } }
    {
        Registry {
            entries: Vec::new(alloc),
            ran: Vec::new(alloc),
        }
    }

    /// Registers the callbacks, in their order, for the node at the place. Want of memory is free.
    pub fn register(&mut self, node: u32, place: u32, callbacks: &[u32]) -> Result<(), NoMemory>
        ensures entries { OnOk result (self.new.entries
            ≡ self.old.entries ++ map (registered node place) callbacks.now) }
        ensures ran { self.new.ran ≡ self.old.ran }
        ensures full { OnErr result (self.new ≡ self.old) }
    {
        self.entries.reserve(callbacks.len())?;
        // Each registration may be run, and has its room in what ran.
        reserve_ran(&mut self.ran, self.entries.len() + callbacks.len())?;
        append(&mut self.entries, node, place, callbacks);
        Ok(())
    }

    /// Takes the last registrations away.
    pub fn unregister_last(&mut self, count: u32)
        requires { count ≤ length self.old.entries }
        ensures entries { self.new.entries
            ≡ take (length self.old.entries - count) self.old.entries }
        ensures ran { self.new.ran ≡ self.old.ran }
    {
        self.entries.truncate(self.entries.len() - count as usize);
    }

    /// Gives the place to the last registrations.
    pub fn place_last(&mut self, count: u32, place: u32)
        requires { count ≤ length self.old.entries }
        ensures entries { self.new.entries
            ≡ take (length self.old.entries - count) self.old.entries
            ++ map (placed_at place) (drop (length self.old.entries - count) self.old.entries) }
        ensures ran { self.new.ran ≡ self.old.ran }
    {
        let first = self.entries.len() - count as usize;
        place_all(&mut self.entries[first..], place);
    }

    /// The node and the callback of each registration that the last `run_dead` ran, in the order in
    /// which they ran.
    pub fn ran(&self) -> &[(u32, u32)]
        ensures { result.now ≡ self.now.ran }
    {
        &self.ran
    }
}

/// Makes room for so many calls in what ran. Want of memory is free.
pub(crate) fn reserve_ran(ran: &mut Vec<(u32, u32)>, calls: usize) -> Result<(), NoMemory>
    ensures items { ran.new.items ≡ ran.old.items }
    ensures room { OnOk result (calls ≤ vec_capacity ran.new) }
    ensures capacity { vec_capacity ran.old ≤ vec_capacity ran.new }
{
    Ok(ran.reserve(calls.saturating_sub(ran.len()))?)
}

/// Appends a registration for each callback, for which there is room.
fn append(entries: &mut Vec<Registered>, node: u32, place: u32, callbacks: &[u32])
    requires { length entries.old.items + length callbacks.now ≤ vec_capacity entries.old }
    ensures { entries.new.items ≡ entries.old.items ++ map (registered node place) callbacks.now }
{
    for callback in callbacks {
        entries.push_reserved(Registered {
            node,
            place,
            callback: *callback,
        });
    }
}

fn place_all(entries: &mut [Registered], place: u32)
    ensures { entries.new ≡ map (placed_at place) entries.old }
{
    for entry in entries.iter_mut() {
        entry.place = place;
    }
}
