// What running callbacks asks of a heap.

ghost use Rattle.std.specs.Prelude.{◌≡◌, ℕ, ◌≤◌, List, take, length};
ghost use Rattle.gc_graph.specs.State.{Node, node_at};
ghost use Rattle.gc_graph.specs.Actions.{shown_words, acted};
ghost use Rattle.callback_table.specs.Bodies.{StandsAt, IsNodePlace, TellsDead};

use gc_graph::Action;

/// The objects of a heap while callbacks run. A place is the address of an object's first word.
/// Whoever implements it says which nodes the objects stand for, what else it needs of itself, and
/// what stays however often it is called.
pub trait Bodies {
    ghost nodes: { Self → List Node };

    ghost is_ready: { Self → Type 0 };

    ghost keeps: { Self → Self → Type 0 };

    /// Whether the object is dead.
    fn dead(&mut self, place: u32) -> bool
        requires ready { is_ready self.old }
        requires place { IsNodePlace (nodes self.old) place }
        ensures answer { TellsDead (nodes self.old) place result }
        ensures nodes { nodes self.new ≡ nodes self.old }
        ensures ready { is_ready self.new }
        ensures rest { keeps self.old self.new };

    /// Writes the object's shown words to the front of `into`, and answers how many these are.
    fn words(&mut self, place: u32, into: &mut [u64; 64]) -> u32
        requires ready { is_ready self.old }
        requires place { IsNodePlace (nodes self.old) place }
        ensures few { result ≤ 64 }
        ensures words { (n : ℕ) → StandsAt (nodes self.old) place n
            → take result into.new ≡ shown_words (node_at (nodes self.old) n) }
        ensures nodes { nodes self.new ≡ nodes self.old }
        ensures ready { is_ready self.new }
        ensures rest { keeps self.old self.new };

    /// Does what the action says for the object.
    fn apply(&mut self, place: u32, action: Action)
        requires ready { is_ready self.old }
        requires place { IsNodePlace (nodes self.old) place }
        ensures nodes { (n : ℕ) → StandsAt (nodes self.old) place n
            → nodes self.new ≡ acted (nodes self.old) n action }
        ensures ready { is_ready self.new }
        ensures rest { keeps self.old self.new };

    ghost keeps_itself: { (bodies : Self) → keeps bodies bodies };

    ghost keeps_on: { (first second third : Self) → keeps first second → keeps second third → keeps first third };
}
