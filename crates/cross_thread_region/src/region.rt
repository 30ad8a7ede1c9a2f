// The region: slots that threads share, and the history of what was done to them
// (`include/cppgc/cross-thread-persistent.h`).

ghost use Rattle.std.specs.Prelude.{◌≡◌, ◌≢◌, ◌+◌, ◌<◌, ◌≤◌, ◌^◌};
ghost use Rattle.std.specs.Prelude.{IfOk, Contains, length, slice_get};
ghost use Rattle.gc_graph.specs.declared.region.Op.TheVariants as O;
ghost use Rattle.gc_graph.specs.History.{IsLegal};
ghost use Rattle.gc_graph.specs.Outcomes.{IsThreadOp};
ghost use Rattle.region_lock.specs.Passes.{first_state, split_off, with_out, joined_with};
ghost use Rattle.region_lock.specs.Rule.{BeginsOther};
ghost use Rattle.cross_thread_region.specs.Histories.{entries_of, place_told};
ghost use Rattle.cross_thread_region.specs.Calls.{Finds, IsPassReady, IsCallAnswered, named, seeing};
ghost use Rattle.cross_thread_region.specs.Contents.{IsCallWithin, IsCounted, MayAdd};

use crate::chronicle::Chronicle;
use crate::pass::Pass;
use gc_graph::{Entry, NoMemory, Op, Reply};
use region_lock::{Held, RegionLock};
use std::alloc::Global;
use std::marker::Model;
use std::sync::Wait;

/// Slots, each null, strong or weak, with the history of the calls on them behind a lock. Each call
/// is one turn of the lock, for which it waits, and is made with the caller's own pass.
#[derive(Drop)]
pub struct Region {
    pub(crate) slots: u32,
    pub(crate) lock: RegionLock<Chronicle>,
}

impl Model for Region {
    ghost use Rattle.std.specs.Prelude.{◌≤◌};
    ghost use Rattle.cross_thread_region.specs.Calls.{RegionView};

    ghost Value = { RegionView };

    ghost view = { λ r. record { slots = r.slots; lock = r.lock } };

    ghost invariant = { λ r. r.slots ≤ 32 };
}

impl Region {
    /// So many slots, all null, and the first pass. Want of memory is free.
    pub fn new(alloc: Global, slots: u32) -> Result<(Region, Pass), NoMemory>
        requires { slots ≤ 32 }
        ensures slots { IfOk result (λ made. made.0.slots ≡ slots) }
        ensures pass { IfOk result (λ made. made.1 ≡ first_state made.0.lock) }
    {
        let chronicle = Chronicle::new(alloc)?;
        let (lock, first) = RegionLock::new(alloc, chronicle)?;
        let pass = Pass {
            number: 0,
            count: 0,
            lock: first,
        };
        Ok((Region { slots, lock }, pass))
    }

    /// Slot `into` gets what slot `from` holds. Want of memory is free.
    pub fn copy<R: Wait>(&self, rt: &R, pass: &mut Pass, from: u32, into: u32) -> Reply
        requires ready { IsPassReady self.now pass.old }
        requires from { from < self.now.slots }
        requires into { into < self.now.slots }
        ensures { IsCallAnswered pass.old (O.Copy from into) 0 result pass.new }
    {
        self.enter(rt, pass, Op::Copy { from, into }, 0)
    }

    /// The slot becomes null. Want of memory is free.
    pub fn clear<R: Wait>(&self, rt: &R, pass: &mut Pass, slot: u32) -> Reply
        requires ready { IsPassReady self.now pass.old }
        requires slot { slot < self.now.slots }
        ensures { IsCallAnswered pass.old (O.Clear slot) 0 result pass.new }
    {
        self.enter(rt, pass, Op::Clear { slot }, 0)
    }

    /// A strong slot becomes weak. Want of memory is free.
    pub fn weaken<R: Wait>(&self, rt: &R, pass: &mut Pass, slot: u32) -> Reply
        requires ready { IsPassReady self.now pass.old }
        requires slot { slot < self.now.slots }
        ensures { IsCallAnswered pass.old (O.Weaken slot) 0 result pass.new }
    {
        self.enter(rt, pass, Op::Weaken { slot }, 0)
    }

    /// Slot `into` becomes strong for what slot `from` names, or null. Want of memory is free.
    pub fn upgrade<R: Wait>(&self, rt: &R, pass: &mut Pass, from: u32, into: u32) -> Reply
        requires ready { IsPassReady self.now pass.old }
        requires from { from < self.now.slots }
        requires into { into < self.now.slots }
        ensures { IsCallAnswered pass.old (O.Upgrade from into) 0 result pass.new }
    {
        self.enter(rt, pass, Op::Upgrade { from, into }, 0)
    }

    /// The slot becomes strong for the node, which has this place. Want of memory is free.
    pub fn export<R: Wait>(
        &self,
        rt: &R,
        pass: &mut Pass,
        slot: u32,
        node: u32,
        place: u32,
    ) -> Reply
        requires ready { IsPassReady self.now pass.old }
        requires first { pass.old.number ≡ 0 }
        requires slot { slot < self.now.slots }
        requires small { place + 1 < 2 ^ 32 }
        ensures { IsCallAnswered pass.old (O.Export slot node) place result pass.new }
    {
        self.enter(rt, pass, Op::Export { slot, node }, place)
    }

    /// What the slot names, and its place. Want of memory is free.
    pub fn import<R: Wait>(&self, rt: &R, pass: &mut Pass, slot: u32) -> (Reply, u32)
        requires ready { IsPassReady self.now pass.old }
        requires first { pass.old.number ≡ 0 }
        requires slot { slot < self.now.slots }
        ensures call { IsCallAnswered pass.old (O.Import slot) 0 result.0 pass.new }
        ensures place { result.1 ≡ place_told result.0 pass.new.seen slot }
    {
        let _few = self.slots;
        let mut held = self.lock.take(rt, &mut pass.lock);
        held.value.is_legal();
        let reply = add(&mut held, pass.number, Op::Import { slot }, 0);
        let place = match reply {
            Reply::Node(_) => held.value.place(slot),
            _ => 0,
        };
        held.value.is_legal();
        pass.count = held.value.len();
        self.lock.give(held, &mut pass.lock);
        (reply, place)
    }

    /// How many entries the pass has seen. It takes no turn.
    pub fn entries(&self, pass: &mut Pass) -> u64
        ensures count { result ≡ length pass.old.seen }
        ensures pass { pass.new ≡ pass.old }
    {
        pass.count
    }

    /// Entry i of those that the pass had seen. It makes no entry.
    pub fn entry<R: Wait>(&self, rt: &R, pass: &mut Pass, i: u64) -> Entry
        requires ready { IsPassReady self.now pass.old }
        requires seen { i < length pass.old.seen }
        ensures entry { slice_get (entries_of pass.old.seen) i ≡ Some result }
        ensures found { Finds pass.old pass.new.seen }
        ensures pass { pass.new ≡ seeing pass.old pass.new.seen }
    {
        let held = self.lock.take(rt, &mut pass.lock);
        held.value.is_legal();
        pass.count = held.value.len();
        let entry = held.value.entry(i);
        self.lock.give(held, &mut pass.lock);
        entry
    }

    /// A pass with this number, which has seen what the first one has.
    pub fn split_pass(&self, pass: &mut Pass, number: u32) -> Pass
        requires lock { pass.old.lock ≡ self.now.lock }
        requires first { pass.old.number ≡ 0 }
        requires above { 0 < number }
        requires below { number ≤ 8 }
        requires new { Contains pass.old.out number → ⊥ }
        ensures other { result ≡ split_off pass.old number }
        ensures out { pass.new ≡ with_out pass.old number }
    {
        let lock = self.lock.split_pass(&mut pass.lock, number);
        Pass {
            number,
            count: pass.count,
            lock,
        }
    }

    /// The first pass has seen what the other one has too, whose number is no longer out.
    pub fn join_pass(&self, pass: &mut Pass, other: Pass)
        requires lock { pass.old.lock ≡ self.now.lock }
        requires first { pass.old.number ≡ 0 }
        requires ready { IsPassReady self.now other }
        requires later { other.number ≢ 0 }
        ensures joined { pass.new ≡ joined_with pass.old other }
        ensures seen { BeginsOther named other.number pass.old.seen other.seen pass.old.out }
    {
        let Pass {
            number: _,
            count,
            lock,
        } = other;
        self.lock.join_pass(&mut pass.lock, lock);
        if pass.count < count {
            pass.count = count;
        }
    }

    /// Makes the entry of a call. Want of memory is free.
    fn enter<R: Wait>(&self, rt: &R, pass: &mut Pass, op: Op, place: u32) -> Reply
        requires ready { IsPassReady self.now pass.old }
        requires within { IsCallWithin self.now.slots op }
        requires right { pass.old.number ≢ 0 → IsThreadOp op }
        requires small { place + 1 < 2 ^ 32 }
        ensures { IsCallAnswered pass.old op place result pass.new }
    {
        let _few = self.slots;
        let mut held = self.lock.take(rt, &mut pass.lock);
        held.value.is_legal();
        let reply = held.value.add(pass.number, op, place);
        match reply {
            Reply::NoMemory => {}
            _ => held.added(),
        }
        held.value.is_legal();
        pass.count = held.value.len();
        self.lock.give(held, &mut pass.lock);
        reply
    }
}

/// Makes an entry that is no pause's, in a turn of the lock. Want of memory is free.
pub(crate) fn add(held: &mut Held<Chronicle>, number: u32, op: Op, place: u32) -> Reply
    requires within { IsCallWithin 32 op }
    requires right { number ≢ 0 → IsThreadOp op }
    requires small { place + 1 < 2 ^ 32 }
    requires counted { IsCounted held.old }
    ensures added { MayAdd held.old.value number op place result held.new.value }
    ensures legal { IsLegal (entries_of held.new.value.history) }
    ensures ticket { held.new.ticket ≡ held.old.ticket }
    ensures counted { IsCounted held.new }
{
    let reply = held.value.add(number, op, place);
    match reply {
        Reply::NoMemory => {}
        _ => held.added(),
    }
    reply
}
