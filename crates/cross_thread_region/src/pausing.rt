// Turns of the lock that last for more than one call: a pause takes one and ends it with its entry, and a
// look takes one in which nothing is entered. A collection's start tells the strong slots in its own turn.

ghost use Rattle.std.specs.Prelude.{◌≡◌, ℕ, Bool, true, Some, length};
ghost use Rattle.gc_graph.specs.declared.region.Op.TheVariants as O;
ghost use Rattle.gc_graph.specs.declared.region.Reply.TheVariants as Answer;
ghost use Rattle.gc_graph.specs.History.{IsLegal, NamesWeakSlots};
ghost use Rattle.persistent_slots.specs.Clearing.{MayBeAsked, AnswersBy, ClearsInTurn};
ghost use Rattle.cross_thread_region.specs.Histories.{entries_of, slots_of, is_started, start_told, weak_places};
ghost use Rattle.cross_thread_region.specs.Calls.{Finds, IsPassReady, IsCallAnswered, with_turn, after_turn};
ghost use Rattle.cross_thread_region.specs.Pauses.{history_paused, dying_of};

use crate::held::{HeldHistory, HeldRegion};
use crate::pass::Pass;
use crate::region::{Region, add};
use gc_graph::{Op, Reply};
use std::sync::Wait;

impl Region {
    /// Writes down for each slot its place and 1 where it is strong, and 0 where it isn't. It takes
    /// the room for the pause's entry too. Want of memory is free.
    pub fn start_entry<R: Wait>(&self, rt: &R, pass: &mut Pass, strong: &mut [u32]) -> Reply
        requires ready { IsPassReady self.now pass.old }
        requires first { pass.old.number ≡ 0 }
        requires strong { length strong.old ≡ self.now.slots }
        ensures call { IsCallAnswered pass.old O.Start 0 result pass.new }
        ensures strong { result ≡ Answer.Done
            → strong.new ≡ start_told pass.new.seen self.now.slots }
        ensures untold { result ≡ Answer.NoMemory → strong.new ≡ strong.old }
        ensures started { result ≡ Answer.Done → is_started pass.new.seen ≡ true }
    {
        let _few = self.slots;
        let mut held = self.lock.take(rt, &mut pass.lock);
        held.value.is_legal();
        let reply = add(&mut held, pass.number, Op::Start, 0);
        if let Reply::Done = reply {
            held.value.tell_strong(strong);
        }
        held.value.is_legal();
        pass.count = held.value.len();
        self.lock.give(held, &mut pass.lock);
        reply
    }

    /// A pause takes its turn, which it has until `pause_end`.
    pub fn pause_begin<R: Wait>(&self, rt: &R, pass: &mut Pass) -> HeldRegion
        requires ready { IsPassReady self.now pass.old }
        requires first { pass.old.number ≡ 0 }
        requires started { is_started pass.old.seen ≡ true }
        ensures found { Finds pass.old result.history }
        ensures pass { pass.new ≡ with_turn pass.old result }
    {
        let mut held = self.lock.take(rt, &mut pass.lock);
        held.value.is_legal();
        held.value.begin_pause();
        HeldRegion { held }
    }

    /// Clears the weak slots whose place the test calls dead, and ends the turn with the pause's
    /// entry. The answer stands for the slots that were cleared. It takes no memory.
    pub fn pause_end<F: FnMut(u32) -> bool>(
        &self,
        pass: &mut Pass,
        held: HeldRegion,
        dead: F,
    ) -> u32
        requires lock { pass.old.lock ≡ self.now.lock }
        requires first { pass.old.number ≡ 0 }
        requires turn { pass.old.turn ≡ Some (held.ticket, held.history) }
        requires asks { MayBeAsked F.pre F.step dead (weak_places held.history) }
        ensures pass { pass.new ≡ after_turn pass.old (history_paused held.history result) }
        ensures legal { IsLegal (entries_of (history_paused held.history result)) }
        ensures weak { NamesWeakSlots result (slots_of held.history) }
        ensures cleared { ClearsInTurn F.step dead (weak_places held.history)
            (weak_places (history_paused held.history result)) }
        ensures exactly { (rule : ℕ → Bool)
            → AnswersBy F.step rule dead (weak_places held.history)
            → result ≡ dying_of rule held.history }
    {
        let HeldRegion { mut held } = held;
        let cleared = held.value.end_pause(pass.number, dead);
        held.added();
        held.value.is_legal();
        pass.count = held.value.len();
        self.lock.give(held, &mut pass.lock);
        cleared
    }

    /// Takes a turn to look at the history, which the pass has until `end_look`.
    pub fn look<R: Wait>(&self, rt: &R, pass: &mut Pass) -> HeldHistory
        requires ready { IsPassReady self.now pass.old }
        ensures found { Finds pass.old result.history }
        ensures pass { pass.new ≡ with_turn pass.old result }
    {
        let held = self.lock.take(rt, &mut pass.lock);
        held.value.is_legal();
        HeldHistory { held }
    }

    /// Ends the turn, in which nothing was entered. The pass has then seen all that it held.
    pub fn end_look(&self, pass: &mut Pass, held: HeldHistory)
        requires lock { pass.old.lock ≡ self.now.lock }
        requires turn { pass.old.turn ≡ Some (held.ticket, held.history) }
        ensures { pass.new ≡ after_turn pass.old held.history }
    {
        let HeldHistory { held } = held;
        held.value.is_legal();
        pass.count = held.value.len();
        self.lock.give(held, &mut pass.lock);
    }
}
