// Running a callback on the words of an object, some of which are masked.

ghost use Rattle.std.specs.Prelude.{◌≡◌, [], ◌∷◌, length};
ghost use Rattle.gc_graph.specs.WeakCalls.{shown_under, weak_call, called};
ghost use Rattle.callback_table.specs.Registry.{IsRegistered};
ghost use Rattle.callback_table.specs.Table.{callback_kinds};

use crate::bodies::Bodies;
use crate::registry::Registered;
use crate::table::CallbackTable;

/// Calls the callback with the shown words of the object under the mask, and does what it answers.
pub(crate) fn run<B: Bodies>(
    entry: Registered,
    mask: u64,
    table: &CallbackTable,
    bodies: &mut B,
    shown: &mut [u64; 64],
)
    requires ready { B.is_ready bodies.old }
    requires registered { IsRegistered (B.nodes bodies.old)
        (length (callback_kinds table.now)) entry }
    ensures nodes { B.nodes bodies.new ≡ called (callback_kinds table.now)
        (weak_call entry.node mask entry.callback ∷ [])
        (B.nodes bodies.old) }
    ensures ready { B.is_ready bodies.new }
    ensures rest { B.keeps bodies.old bodies.new }
{
    let count = bodies.words(entry.place, shown) as usize;
    let shown = &mut shown[..count];
    show_under(shown, mask);
    let action = table.call(entry.callback, shown);
    bodies.apply(entry.place, action);
}

/// Shows 2 at the bits of the mask.
fn show_under(shown: &mut [u64], mask: u64)
    ensures { shown.new ≡ shown_under mask shown.old }
{
    let mut rest = mask;
    for word in shown.iter_mut() {
        if rest % 2 != 0 {
            *word = 2;
        }
        rest /= 2;
    }
}
