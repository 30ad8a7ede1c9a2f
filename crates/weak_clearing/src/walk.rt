// From object to object, and from handle to handle of each.

ghost use Rattle.std.specs.Prelude.{◌≡◌, ◌/◌, ◌<◌, false};
ghost use Rattle.std.specs.Io.{StartsWith};
ghost use Rattle.marker_core.specs.Bodies.{IsPlace};
ghost use Rattle.page_words.specs.Seat.{OnlyLooked, block_words};
ghost use Rattle.page_space.specs.Pages.{word_count};
ghost use Rattle.page_space.specs.Space.{IsSeatOf, AreStartsOf};
ghost use Rattle.weak_clearing.specs.Clearing.{MarkedHaveReferencesOf};
ghost use Rattle.weak_clearing.specs.Steps.{HasHandle, IsMarkedOf, kind_of_handles};
ghost use Rattle.weak_clearing.specs.Steps.{handle_cleared, body_cleared, block_cleared};
ghost use Rattle.weak_clearing.specs.Steps.{all_cleared};

use crate::fields::clear_field;
use crate::marks::marked_type;
use crate::pairs::clear_pair;
use crate::weak_handles::WeakHandles;
use page_space::Space;
use page_words::{BLOCK_WORDS, MutatorSeat};
use type_table::TypeTable;

/// Sets to null exactly those of these handles of marked objects that name an object that is not
/// marked.
pub fn clear_handles(space: &Space, types: &TypeTable, seat: &mut MutatorSeat, handles: WeakHandles)
    requires heap { IsSeatOf space.now seat.old }
    requires off { seat.old.on ≡ false }
    requires types { types.now ≡ seat.old.types }
    requires references { MarkedHaveReferencesOf (kind_of_handles handles) seat.old }
    ensures cleared { OnlyLooked (all_cleared handles seat.old) seat.new }
    ensures looked { StartsWith seat.new.looked seat.old.looked }
{
    if !handles.are_in(types) {
        return;
    }
    seat.bodies_lie_apart();
    // From block to block and not from word to word: the time is to grow with the objects. Clearing
    // moves none of them, so the start bits of a block are loaded once.
    for block in 0..space.words().count() / BLOCK_WORDS {
        let starts = space.starts_in(seat, block);
        clear_block(space, types, seat, handles, block, starts);
    }
}

/// Clears the handles of the marked objects that start in a block, where these are its start bits.
fn clear_block(
    space: &Space,
    types: &TypeTable,
    seat: &mut MutatorSeat,
    handles: WeakHandles,
    block: u32,
    starts: u64,
)
    requires heap { IsSeatOf space.now seat.old }
    requires off { seat.old.on ≡ false }
    requires types { types.now ≡ seat.old.types }
    requires references { MarkedHaveReferencesOf (kind_of_handles handles) seat.old }
    requires block { block < word_count space.now.shape / block_words }
    requires starts { AreStartsOf seat.old.bodies block starts }
    ensures cleared { OnlyLooked (block_cleared handles seat.old block) seat.new }
    ensures looked { StartsWith seat.new.looked seat.old.looked }
{
    seat.bodies_lie_apart();
    let mut left = starts;
    while left != 0 {
        let start = left.trailing_zeros();
        clear_object(space, types, seat, handles, BLOCK_WORDS * block + start);
        left &= !(1u64 << start);
    }
}

/// Clears the handles of an object, if it is marked.
fn clear_object(
    space: &Space,
    types: &TypeTable,
    seat: &mut MutatorSeat,
    handles: WeakHandles,
    a: u32,
)
    requires heap { IsSeatOf space.now seat.old }
    requires off { seat.old.on ≡ false }
    requires types { types.now ≡ seat.old.types }
    requires references { MarkedHaveReferencesOf (kind_of_handles handles) seat.old }
    requires start { IsPlace seat.old.bodies a }
    ensures cleared { OnlyLooked (body_cleared handles seat.old a) seat.new }
    ensures looked { StartsWith seat.new.looked seat.old.looked }
{
    if let Some(ty) = marked_type(space, seat, a) {
        clear_holder(space, types, seat, handles, a, ty);
    }
}

/// Clears the handles of a marked object of a type. Its other words are never read.
fn clear_holder(
    space: &Space,
    types: &TypeTable,
    seat: &mut MutatorSeat,
    handles: WeakHandles,
    holder: u32,
    ty: u32,
)
    requires heap { IsSeatOf space.now seat.old }
    requires off { seat.old.on ≡ false }
    requires types { types.now ≡ seat.old.types }
    requires references { MarkedHaveReferencesOf (kind_of_handles handles) seat.old }
    requires marked { IsMarkedOf seat.old holder ty }
    ensures cleared { OnlyLooked (body_cleared handles seat.old holder) seat.new }
    ensures looked { StartsWith seat.new.looked seat.old.looked }
{
    seat.bodies_lie_apart();
    let words = handles.words_of(types, ty);
    for word in words {
        clear_handle(space, seat, handles, holder, *word);
    }
}

/// Clears the handle at an offset, if it names an object that is not marked.
fn clear_handle(space: &Space, seat: &mut MutatorSeat, handles: WeakHandles, holder: u32, word: u32)
    requires heap { IsSeatOf space.now seat.old }
    requires off { seat.old.on ≡ false }
    requires handle { HasHandle handles seat.old holder word }
    ensures cleared { OnlyLooked (handle_cleared handles seat.old holder word) seat.new }
    ensures looked { StartsWith seat.new.looked seat.old.looked }
{
    match handles {
        WeakHandles::Fields => clear_field(space, seat, holder, word),
        WeakHandles::Pairs => clear_pair(space, seat, holder, word),
    }
}
