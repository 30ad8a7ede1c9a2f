// Calls of the owner on the region (`include/cppgc/cross-thread-persistent.h`). Each makes an
// entry, and takes those that threads have made before it, and then its own.

ghost use Rattle.std.specs.Prelude.{◌≡◌, ◌<◌, ℕ, List, [], false, OnOk, OnErr, IfOk, length};
ghost use Rattle.gc_graph.specs.declared.region.Op.TheVariants as O;
ghost use Rattle.gc_graph.specs.History.{reply_of};
ghost use Rattle.cross_thread_region.specs.declared.chronicle.PlacedEntry.{PlacedEntry};
ghost use Rattle.cross_thread_region.specs.Histories.{place_told, slot_target};
ghost use Rattle.cross_thread_region.specs.Histories.{slots_of, start_told};
ghost use Rattle.heap_objects.specs.Nodes.{AreOfValid};
ghost use Rattle.heap_objects.specs.Objects.{IsLiveAt, setup_of_objects};
ghost use Rattle.heap_region.specs.Calls.{HasEntered};
ghost use Rattle.heap_region.specs.Handled.{IsHandled, LooksAgain};

use crate::owned::OwnedRegion;
use crate::taking::look_at_seen;
use gc_graph::{NoMemory, Reply};
use heap_objects::Objects;
use std::sync::Wait;

impl OwnedRegion {
    /// The slot becomes strong for the node with this number, which has this place. Want of memory
    /// is free.
    pub fn export<R: Wait>(
        &mut self,
        rt: &R,
        objects: &mut Objects,
        slot: u32,
        number: u32,
        place: u32,
    ) -> Result<(), NoMemory>
        requires opened { self.old.closed ≡ false }
        requires quiet { self.old.told ≡ [] }
        requires slot { slot < 32 }
        requires valid { AreOfValid (setup_of_objects objects.old) objects.old.nodes }
        requires handled { IsHandled objects.old.nodes self.old.taken }
        requires node { IsLiveAt objects.old.nodes number place }
        ensures entered { OnOk result (HasEntered (O.Export slot number) place self.old self.new) }
        ensures looked { OnOk result (LooksAgain objects.old self.old self.new objects.new) }
        ensures same { OnErr result (self.new ≡ self.old) }
        ensures objects { OnErr result (objects.new ≡ objects.old) }
    {
        // A place is that of a word, and the number of words fits its type.
        let _words = objects.word_count();
        match self.region.export(rt, &mut self.pass, slot, number, place) {
            Reply::NoMemory => Err(NoMemory),
            _ => {
                self.taken = look_at_seen(rt, &self.region, &mut self.pass, objects, self.taken);
                Ok(())
            }
        }
    }

    /// The place and the number of what the slot names. Want of memory is free.
    pub fn import<R: Wait>(
        &mut self,
        rt: &R,
        objects: &mut Objects,
        slot: u32,
    ) -> Result<Option<(u32, u32)>, NoMemory>
        requires opened { self.old.closed ≡ false }
        requires quiet { self.old.told ≡ [] }
        requires slot { slot < 32 }
        requires valid { AreOfValid (setup_of_objects objects.old) objects.old.nodes }
        requires handled { IsHandled objects.old.nodes self.old.taken }
        ensures target { IfOk result (λ target. target ≡ slot_target self.new.taken slot) }
        ensures entered { OnOk result (HasEntered (O.Import slot) 0 self.old self.new) }
        ensures looked { OnOk result (LooksAgain objects.old self.old self.new objects.new) }
        ensures same { OnErr result (self.new ≡ self.old) }
        ensures objects { OnErr result (objects.new ≡ objects.old) }
    {
        let (reply, place) = self.region.import(rt, &mut self.pass, slot);
        match reply {
            Reply::NoMemory => Err(NoMemory),
            _ => {
                self.taken = look_at_seen(rt, &self.region, &mut self.pass, objects, self.taken);
                Ok(target_told(reply, place))
            }
        }
    }

    /// The start entry of a cycle, which tells of each slot its place and 1 where it is strong, and
    /// 0 where it isn't. It takes the room for the pause's entry too. Want of memory is free.
    pub fn start<R: Wait>(
        &mut self,
        rt: &R,
        objects: &mut Objects,
        told: &mut [u32],
    ) -> Result<(), NoMemory>
        requires opened { self.old.closed ≡ false }
        requires quiet { self.old.told ≡ [] }
        requires slots { length told.old ≡ 32 }
        requires valid { AreOfValid (setup_of_objects objects.old) objects.old.nodes }
        requires handled { IsHandled objects.old.nodes self.old.taken }
        ensures entered { OnOk result (HasEntered O.Start 0 self.old self.new) }
        ensures looked { OnOk result (LooksAgain objects.old self.old self.new objects.new) }
        ensures told { OnOk result (told.new ≡ start_told self.new.taken 32) }
        ensures same { OnErr result (self.new ≡ self.old) }
        ensures objects { OnErr result (objects.new ≡ objects.old) }
    {
        match self.region.start_entry(rt, &mut self.pass, told) {
            Reply::NoMemory => Err(NoMemory),
            _ => {
                self.taken = look_at_seen(rt, &self.region, &mut self.pass, objects, self.taken);
                Ok(())
            }
        }
    }
}

/// The place and the number of what an import told, whose place is that of its slot.
fn target_told(reply: Reply, place: u32) -> Option<(u32, u32)>
    ensures { (history : List PlacedEntry) (slot : ℕ)
        → reply ≡ reply_of (slots_of history) (O.Import slot)
        → place ≡ place_told reply history slot → result ≡ slot_target history slot }
{
    match reply {
        Reply::Node(number) => Some((place, number)),
        _ => None,
    }
}
