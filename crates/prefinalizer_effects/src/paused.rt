// The objects of a heap while prefinalizers run (`include/cppgc/prefinalizer.h`). These see words and
// change words, and never store a reference, so that nothing comes to life again.

ghost use Rattle.std.specs.Prelude.{◌≡◌, ℕ, ◌≤◌, not, take};
ghost use Rattle.std.specs.Io.{StartsWith};
ghost use Rattle.gc_graph.specs.Actions.{shown_words, acted};
ghost use Rattle.gc_graph.specs.ActionLaw.{HaveStayed};
ghost use Rattle.gc_graph.specs.Pause.{is_dead_at};
ghost use Rattle.gc_graph.specs.State.{node_at};
ghost use Rattle.callback_table.specs.Bodies.{IsNodePlace, StandsAt};
ghost use Rattle.page_words.specs.Seat.{OnlyLooked};
ghost use Rattle.nodes_in_words.specs.Space.{extents_of_bodies};
ghost use Rattle.prefinalizer_effects.specs.Prepared.{IsPrepared};

use crate::{acted_nodes, acting, shown};
use callback_table::{Action, Bodies};
use ghost_values::GhostValue;
use nodes_in_words::{NodeLists, Space};
use page_words::MutatorSeat;
use type_table::TypeTable;

/// The objects of a heap in a pause, once marking is over, as prefinalizers see and change them.
#[derive(Drop)]
pub struct PausedBodies<'a> {
    pub seat: &'a mut MutatorSeat,
    pub nodes: &'a mut GhostValue<NodeLists>,
    pub space: &'a Space,
    pub types: &'a TypeTable,
}

impl<'a> Bodies for PausedBodies<'a> {
    ghost use Rattle.std.proofs.Common.{◌∙◌, refl};
    ghost use Rattle.std.proofs.Transfers.{starts_with_of_eq, starts_with_trans};
    ghost use Rattle.gc_graph.specs.ActionLaw.{HaveStayed};
    ghost use Rattle.prefinalizer_effects.specs.Prepared.{IsPrepared};
    ghost use Rattle.prefinalizer_effects.specs.Lending.{KeepsObjects};

    ghost nodes = { λ o. o.nodes.now.value };

    ghost is_ready = { λ o. IsPrepared o.space.now o.types.now o.seat.now o.nodes.now.value };

    ghost keeps = { KeepsObjects };

    fn dead(&mut self, place: u32) -> bool {
        !is_marked(self.space, self.types, self.seat, self.nodes, place)
    }

    fn words(&mut self, place: u32, into: &mut [u64; 64]) -> u32 {
        show_words(self.space, self.types, self.seat, self.nodes, place, into)
    }

    fn apply(&mut self, place: u32, action: Action) {
        act_on(self.space, self.types, self.seat, self.nodes, place, action);
    }

    ghost keeps_itself = { λ o. record {
      seat = refl;
      nodes = refl;
      space = refl;
      types = refl;
      stayed = record { count = refl; place = λ n. refl; life = λ n. refl; ty = λ n. refl };
      extents = refl;
      looked = starts_with_of_eq o.seat.now.looked o.seat.now.looked refl;
      early = refl;
      marked = refl;
    } };

    ghost keeps_on = { λ first second third a b. record {
      seat = b.seat ∙ a.seat;
      nodes = b.nodes ∙ a.nodes;
      space = b.space ∙ a.space;
      types = b.types ∙ a.types;
      stayed = record {
        count = b.stayed.count ∙ a.stayed.count;
        place = λ n. b.stayed.place n ∙ a.stayed.place n;
        life = λ n. b.stayed.life n ∙ a.stayed.life n;
        ty = λ n. b.stayed.ty n ∙ a.stayed.ty n;
      };
      extents = b.extents ∙ a.extents;
      looked = starts_with_trans
          third.seat.now.looked second.seat.now.looked first.seat.now.looked b.looked a.looked;
      early = b.early ∙ a.early;
      marked = b.marked ∙ a.marked;
    } };
}

/// Whether the object at a place is marked. Once marking is over, the others are dead.
fn is_marked(
    space: &Space,
    types: &TypeTable,
    seat: &mut MutatorSeat,
    nodes: &GhostValue<NodeLists>,
    place: u32,
) -> bool
    requires ready { IsPrepared space.now types.now seat.old nodes.now.value }
    requires place { IsNodePlace nodes.now.value place }
    ensures mark { (n : ℕ) → StandsAt nodes.now.value place n
        → result ≡ not (is_dead_at nodes.now.value n) }
    ensures view { OnlyLooked seat.old seat.new }
    ensures looked { StartsWith seat.new.looked seat.old.looked }
{
    let _ = types;
    let _ = nodes;
    seat.bodies_lie_apart();
    space.header_at(seat, place).mark
}

/// The shown words of the object at a place, at the front of `into`, and how many these are.
fn show_words(
    space: &Space,
    types: &TypeTable,
    seat: &mut MutatorSeat,
    nodes: &GhostValue<NodeLists>,
    place: u32,
    into: &mut [u64; 64],
) -> u32
    requires ready { IsPrepared space.now types.now seat.old nodes.now.value }
    requires place { IsNodePlace nodes.now.value place }
    ensures few { result ≤ 64 }
    ensures words { (n : ℕ) → StandsAt nodes.now.value place n
        → take result into.new ≡ shown_words (node_at nodes.now.value n) }
    ensures view { OnlyLooked seat.old seat.new }
    ensures looked { StartsWith seat.new.looked seat.old.looked }
{
    let _ = nodes;
    type_table::fields_stand_apart();
    shown::shown_words(space, types, seat, place, into)
}

/// Does what the action says for the object at a place.
fn act_on(
    space: &Space,
    types: &TypeTable,
    seat: &mut MutatorSeat,
    nodes: &mut GhostValue<NodeLists>,
    place: u32,
    action: Action,
)
    requires ready { IsPrepared space.now types.now seat.old nodes.old.value }
    requires place { IsNodePlace nodes.old.value place }
    ensures nodes { (n : ℕ) → StandsAt nodes.old.value place n
        → nodes.new.value ≡ acted nodes.old.value n action }
    ensures ready { IsPrepared space.now types.now seat.new nodes.new.value }
    ensures stayed { HaveStayed nodes.old.value nodes.new.value }
    ensures extents { extents_of_bodies seat.new.bodies ≡ extents_of_bodies seat.old.bodies }
    ensures looked { StartsWith seat.new.looked seat.old.looked }
    ensures early { seat.new.early ≡ seat.old.early }
    ensures marked { seat.new.marked ≡ seat.old.marked }
{
    gc_graph::actions_leave_nodes();
    seat.bodies_lie_apart();
    space.lasts_while_objects_stay();
    let number = space.serial_at(seat, place);
    acting::apply(space, types, seat, place, action);
    *nodes = acted_nodes::acted(nodes, number, action);
}
