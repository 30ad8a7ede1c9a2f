// The registrations of both kinds, as one value.

ghost use Rattle.std.specs.Prelude.{◌≡◌, ◌<◌, ◌≤◌, true, [], IfOk, OnOk, OnErr, length};
ghost use Rattle.callback_table.specs.Registrations as spec;

use crate::registry::Registry;
use crate::weak_registry::WeakRegistry;
use gc_graph::NoMemory;
use std::alloc::Global;

/// The registrations of prefinalizers and of weak callbacks.
#[derive(Drop)]
pub struct Registrations {
    pub prefinalizers: Registry,
    pub weak_callbacks: WeakRegistry,
}

/// How many of the last registrations are those of one object: so many prefinalizers, and whether
/// its weak callbacks, which are one registration.
#[derive(Clone, Copy, Drop)]
pub struct LastRegistered {
    pub prefinalizers: u32,
    pub weakly: bool,
}

impl Registrations {
    /// No registrations. Takes no memory.
    pub fn new(alloc: Global) -> Registrations
        ensures { result ≡ record {
          prefinalizers = record { entries = []; ran = [] };
          weak_callbacks = record { entries = []; ran = [] };
        } }
    {
        Registrations {
            prefinalizers: Registry::new(alloc),
            weak_callbacks: WeakRegistry::new(alloc),
        }
    }

    /// Registers the callbacks for the node, which has no place yet. Want of memory is free.
    pub fn register(
        &mut self,
        node: u32,
        prefinalizers: &[u32],
        weak_callbacks: &[u32],
    ) -> Result<LastRegistered, NoMemory>
        requires { length prefinalizers.now ≤ 4294967295 }
        ensures registered { OnOk result (self.new
            ≡ spec.registered_for node 0 prefinalizers.now weak_callbacks.now self.old) }
        ensures last { IfOk result (λ last. last
            ≡ spec.last_of prefinalizers.now weak_callbacks.now) }
        ensures full { OnErr result (self.new ≡ self.old) }
    {
        let last = LastRegistered {
            prefinalizers: prefinalizers.len() as u32,
            weakly: !weak_callbacks.is_empty(),
        };
        let Ok(()) = self.prefinalizers.register(node, 0, prefinalizers) else {
            return Err(NoMemory);
        };
        if last.weakly
            && self
                .weak_callbacks
                .register(node, 0, weak_callbacks)
                .is_err()
        {
            self.prefinalizers.unregister_last(last.prefinalizers);
            return Err(NoMemory);
        }
        Ok(last)
    }

    /// Takes the last registrations away.
    pub fn unregister_last(&mut self, last: LastRegistered)
        requires prefinalizers { last.prefinalizers ≤ length self.old.prefinalizers.entries }
        requires weak { last.weakly ≡ true → 0 < length self.old.weak_callbacks.entries }
        ensures { self.new ≡ spec.without_last last self.old }
    {
        self.prefinalizers.unregister_last(last.prefinalizers);
        if last.weakly {
            self.weak_callbacks.unregister_last();
        }
    }

    /// Gives the place to the last registrations.
    pub fn place_last(&mut self, last: LastRegistered, place: u32)
        requires prefinalizers { last.prefinalizers ≤ length self.old.prefinalizers.entries }
        requires weak { last.weakly ≡ true → 0 < length self.old.weak_callbacks.entries }
        ensures { self.new ≡ spec.placed_last last place self.old }
    {
        self.prefinalizers.place_last(last.prefinalizers, place);
        if last.weakly {
            self.weak_callbacks.place_last(place);
        }
    }
}
