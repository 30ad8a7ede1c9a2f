// The history in a turn of the lock: of a pause, or of a look.

ghost use Rattle.std.specs.Prelude.{◌≡◌, ◌<◌, ◌≤◌, ◌^◌, Some, length, slice_get};
ghost use Rattle.cross_thread_region.specs.Histories.{entries_of, strong_place, weak_place};
ghost use Rattle.cross_thread_region.specs.WeakReads.{weak_read_at};

use crate::chronicle::Chronicle;
use gc_graph::Entry;
use region_lock::Held;
use std::marker::Model;

/// What a pause holds of a region: its history, and with it the places of its slots.
#[derive(Drop)]
pub struct HeldRegion {
    pub(crate) held: Held<Chronicle>,
}

impl Model for HeldRegion {
    ghost use Rattle.cross_thread_region.specs.Calls.{HeldView};
    ghost use Rattle.cross_thread_region.specs.Contents.{IsPauseHeld};

    ghost Value = { HeldView };

    ghost view = { λ h. record { ticket = h.held.ticket; history = h.held.value.history } };

    ghost invariant = { λ h. IsPauseHeld h.held };
}

impl HeldRegion {
    /// The place of a strong slot, which a pause visits. None for each other slot.
    pub fn strong(&self, i: u32) -> Option<u32>
        requires { i < 32 }
        ensures { result ≡ strong_place self.now.history i }
    {
        self.held.value.strong_place(i)
    }

    /// The place of a weak slot, of which the pause's test will be asked. None for each other slot.
    pub fn weak(&self, i: u32) -> Option<u32>
        requires { i < 32 }
        ensures { result ≡ weak_place self.now.history i }
    {
        self.held.value.asked(i)
    }
}

/// The history of a region, for a turn in which no entry is made.
#[derive(Drop)]
pub struct HeldHistory {
    pub(crate) held: Held<Chronicle>,
}

impl Model for HeldHistory {
    ghost use Rattle.cross_thread_region.specs.Calls.{HeldView};
    ghost use Rattle.cross_thread_region.specs.Contents.{IsCounted};

    ghost Value = { HeldView };

    ghost view = { λ h. record { ticket = h.held.ticket; history = h.held.value.history } };

    ghost invariant = { λ h. IsCounted h.held };
}

impl HeldHistory {
    /// How many entries there are: 2 ^ 30 at most.
    pub fn len(&self) -> u32
        ensures count { result ≡ length self.now.history }
        ensures few { length self.now.history ≤ 2 ^ 30 }
    {
        self.held.value.len() as u32
    }

    /// Entry i.
    pub fn entry(&self, i: u32) -> Entry
        requires { i < length self.now.history }
        ensures { slice_get (entries_of self.now.history) i ≡ Some result }
    {
        self.held.value.entry(u64::from(i))
    }

    /// The place that entry i read from a weak slot: none where it read a null or a strong slot, or
    /// nothing.
    pub fn read_place(&self, i: u32) -> Option<u32>
        requires { i < length self.now.history }
        ensures { result ≡ weak_read_at self.now.history i }
    {
        self.held.value.read_place(u64::from(i))
    }
}
