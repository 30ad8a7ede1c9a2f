// Checking that a set has what its members lead to.

ghost use Rattle.std.specs.Prelude.{◌≡◌, ◌↔◌, IsTrue, drop};
ghost use Rattle.std.specs.List.{list_all};
ghost use Rattle.gc_graph.specs.Graph.{object_at, ClosesUnder};
ghost use Rattle.gc_graph.specs.Checking.{is_listed, ListsEach, target_at};
ghost use Rattle.gc_graph.specs.Fields.{words_of_kind};
ghost use Rattle.gc_graph.specs.Checking.{passes, pair_passes};
ghost use Rattle.gc_graph.specs.Checking.{field_closes, fields_close, object_closes};

use crate::graphs::Graph;
use crate::kind::{Kind, Value};
use crate::members::Members;

/// Whether a set holds every root and is closed: it has the target of each strong field of a
/// member, and the value of each pair of a member whose key it has. The members may stand in any
/// order and more than once, and need not be nodes of the graph.
///
/// It takes no memory. With `n` the edges of the members and the roots, and `m` the length of
/// `set`, the cost is `n log m` where `set` ascends, and `n m` otherwise; a member that stands in
/// `set` twice counts twice. Each member and field is looked at once besides.
pub fn reach_check(graph: &Graph, roots: &[u32], set: &[u32]) -> bool
    ensures { IsTrue result ↔ (ListsEach set.now roots.now
        × ClosesUnder graph.now (is_listed set.now)) }
{
    let members = Members::new(set);
    members.has_all(roots) && is_closed(graph, &members)
}

/// Whether a set has what its members lead to.
fn is_closed(graph: &Graph, members: &Members<'_>) -> bool
    ensures { result ≡ list_all
        (λ m. object_closes (is_listed members.now) (object_at graph.now m)) members.now }
{
    for m in members.numbers() {
        if !closes_at(graph, members, *m) {
            return false;
        }
    }
    true
}

/// Whether a set has what one node leads to.
fn closes_at(graph: &Graph, members: &Members<'_>, n: u32) -> bool
    ensures { result ≡ object_closes (is_listed members.now) (object_at graph.now n) }
{
    match graph.node(n) {
        Some(node) => fields_close(node.kinds(), node.values(), members),
        None => true,
    }
}

/// Whether a set has what fields lead to.
fn fields_close(kinds: &[Kind], values: &[Value], members: &Members<'_>) -> bool
    ensures { result ≡ fields_close (is_listed members.now) kinds.now values.now }
{
    let mut rest = values;
    for kind in kinds {
        if !field_closes(*kind, rest, members) {
            return false;
        }
        rest = after_field(*kind, rest);
    }
    true
}

/// Whether a set has what the first field of the values leads to.
fn field_closes(kind: Kind, rest: &[Value], members: &Members<'_>) -> bool
    ensures { result ≡ field_closes (is_listed members.now) kind rest.now }
{
    match kind {
        Kind::Strong => passes(target_at(rest, 0), members),
        Kind::Pair => pair_passes(target_at(rest, 0), target_at(rest, 1), members),
        Kind::Weak | Kind::Plain => true,
    }
}

/// Whether a set has the value of a pair, or lacks its key.
fn pair_passes(key: Option<u32>, value: Option<u32>, members: &Members<'_>) -> bool
    ensures { result ≡ pair_passes (is_listed members.now) key value }
{
    match key {
        Some(key) => !members.has(key) || passes(value, members),
        None => true,
    }
}

/// Whether a set has a target, where there is one.
fn passes(target: Option<u32>, members: &Members<'_>) -> bool
    ensures { result ≡ passes (is_listed members.now) target }
{
    match target {
        Some(n) => members.has(n),
        None => true,
    }
}

/// The node that the value at a place refers to.
fn target_at(values: &[Value], i: usize) -> Option<u32>
    ensures { result ≡ target_at values.now i }
{
    match values.get(i) {
        Some(Value::Ref(n)) => Some(*n),
        _ => None,
    }
}

/// The values of the fields after the first.
fn after_field<'a>(kind: Kind, rest: &'a [Value]) -> &'a [Value]
    ensures { result.now ≡ drop (words_of_kind kind) rest.now }
{
    let words = match kind {
        Kind::Pair => 2,
        Kind::Strong | Kind::Weak | Kind::Plain => 1,
    };
    rest.split_at(rest.len().min(words)).1
}
