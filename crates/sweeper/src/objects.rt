// From object to object: dead objects are finalised in address order, and the marks of the others
// cleared.

ghost use Rattle.std.specs.Prelude.{◌≡◌, ◌+◌, ◌^◌, ◌<◌, ◌≤◌};
ghost use Rattle.std.specs.Prelude.{false, not, length, All, vec_capacity};
ghost use Rattle.marker_core.specs.Bodies.{IsPlace};
ghost use Rattle.marker_core.specs.Bodies.{holds};
ghost use Rattle.page_space.specs.Pages.{word_count};
ghost use Rattle.page_space.specs.Space.{IsSpaceOf, HasNoStart};
ghost use Rattle.sweeper.specs.Sweeping.{IsJudgedFrom, DeadAreUnnamed, Sweeps, dead_between};

use page_space::{MutatorSeat, Space};

/// Sweeps the objects whose places lie from an address up to, and without, `until`.
pub fn sweep_objects(
    space: &mut Space,
    seat: &mut MutatorSeat,
    from: u32,
    until: u32,
    done: &mut Vec<u32>,
)
    requires space { IsSpaceOf space.old seat.old }
    requires order { from ≤ until }
    requires inside { until ≤ word_count space.old.shape }
    requires off { seat.old.on ≡ false }
    requires judged { IsJudgedFrom from seat.old }
    requires unnamed { DeadAreUnnamed seat.old }
    requires serials { All (λ b. b.serial < 2 ^ 32) seat.old.bodies }
    requires room { length done.old.items + dead_between from until seat.old
        ≤ vec_capacity done.old }
    ensures swept { Sweeps from until seat.old done.old.items seat.new done.new.items }
    ensures space { IsSpaceOf space.new seat.new }
    ensures shape { space.new.shape ≡ space.old.shape }
    ensures room { vec_capacity done.new ≡ vec_capacity done.old }
{
    seat.bodies_lie_apart();
    let mut at = from;
    // From object to object and not from word to word: the time is to grow with the objects.
    while at < until {
        at = sweep_next(space, seat, at, until, done);
    }
}

/// Sweeps the lowest of these objects, if there is one. Answers the address up to which all is
/// swept then.
fn sweep_next(
    space: &mut Space,
    seat: &mut MutatorSeat,
    from: u32,
    until: u32,
    done: &mut Vec<u32>,
) -> u32
    requires space { IsSpaceOf space.old seat.old }
    requires order { from < until }
    requires inside { until ≤ word_count space.old.shape }
    requires off { seat.old.on ≡ false }
    requires judged { IsJudgedFrom from seat.old }
    requires unnamed { DeadAreUnnamed seat.old }
    requires serials { All (λ b. b.serial < 2 ^ 32) seat.old.bodies }
    requires room { length done.old.items + dead_between from until seat.old
        ≤ vec_capacity done.old }
    ensures swept { Sweeps from result seat.old done.old.items seat.new done.new.items }
    ensures further { from < result }
    ensures within { result ≤ until }
    ensures space { IsSpaceOf space.new seat.new }
    ensures shape { space.new.shape ≡ space.old.shape }
    ensures room { vec_capacity done.new ≡ vec_capacity done.old }
{
    seat.bodies_lie_apart();
    let a = space.start_from(seat, from, until);
    if a == until {
        return until;
    }
    let size = sweep_object(space, seat, a, done);
    seat.bodies_lie_apart();
    // A large object may end in a later page.
    until.min(a + size)
}

/// Sweeps the object that starts at an address. Answers its size.
fn sweep_object(space: &mut Space, seat: &mut MutatorSeat, a: u32, done: &mut Vec<u32>) -> u32
    requires space { IsSpaceOf space.old seat.old }
    requires start { IsPlace seat.old.bodies a }
    requires off { seat.old.on ≡ false }
    requires judged { holds seat.old.dead a ≡ not (holds seat.old.marked a) }
    requires unnamed { DeadAreUnnamed seat.old }
    requires serials { All (λ b. b.serial < 2 ^ 32) seat.old.bodies }
    requires room { length done.old.items + dead_between a (a + 1) seat.old
        ≤ vec_capacity done.old }
    ensures swept { Sweeps a (a + 1) seat.old done.old.items seat.new done.new.items }
    ensures alone { HasNoStart seat.old.bodies (a + 1) (a + result) }
    ensures least { 2 ≤ result }
    ensures inside { a + result ≤ word_count space.old.shape }
    ensures space { IsSpaceOf space.new seat.new }
    ensures shape { space.new.shape ≡ space.old.shape }
    ensures room { vec_capacity done.new ≡ vec_capacity done.old }
{
    seat.bodies_lie_apart();
    let header = space.header_at(seat, a);
    if header.mark {
        space.words().unmark(seat, a);
    } else {
        done.push_reserved(space.serial_at(seat, a));
        space.free(seat, a, header.size);
    }
    header.size
}
