// Graphs, and lines that were worked out by hand: roots, a set, and whether the set holds the roots
// and is closed.

use gc_graph::{Graph, Kind, NoMemory, Value, reach_check};
use std::alloc::Global;

/// Strong fields (0 → 1 → 2), past which a plain word of node 1 and a weak field of node 2 have the
/// number 5; two pairs of node 3, where the value of the second is the key of the first and names
/// its own key. Node 99 there is none.
const LINES: &str = "\
0|0 1 2|holds
0|2 0 1|holds
0|0 0 1 2 2|holds
0|2 1 0 1 2|holds
0|0 1 2 99|holds
0|0 1|fails
0|2 0|fails
0|1 2|fails
0||fails
1|1 2|holds
1|1 2 3|holds
1|1|fails
1|2|fails
2|2|holds
5|2|fails
3|3|holds
3|3 4 5 6|holds
3|6 5 4 3|holds
3 4|3 4 5 6|holds
4 3|6 4 5 3 6|holds
3 4|3 4|fails
3 4|3 4 5|fails
3 4|3 4 6|fails
3|3 5|fails
3|3 5 6|fails
3|4 5 6|fails
4|4|holds
";

/// A graph without nodes.
const EMPTY: &str = "\
||holds
|5|holds
5|5|holds
5||fails
";

fn graph(alloc: Global) -> Result<Graph, NoMemory> {
    let mut graph = Graph::new(alloc);
    graph.add(&[Kind::Strong], &[Value::Ref(1)])?;
    graph.add(
        &[Kind::Strong, Kind::Plain],
        &[Value::Ref(2), Value::Word(5)],
    )?;
    graph.add(&[Kind::Strong, Kind::Weak], &[Value::Null, Value::Ref(5)])?;
    graph.add(
        &[Kind::Pair, Kind::Pair],
        &[Value::Ref(5), Value::Ref(6), Value::Ref(4), Value::Ref(5)],
    )?;
    graph.add(&[], &[])?;
    graph.add(&[Kind::Strong], &[Value::Ref(4)])?;
    graph.add(&[], &[])?;
    Ok(graph)
}

fn numbers(alloc: Global, text: &str) -> Result<Vec<u32>, NoMemory> {
    let mut numbers = Vec::new(alloc);
    for word in text.split_whitespace() {
        numbers.push(word.parse::<u32>().unwrap_or(u32::MAX))?;
    }
    Ok(numbers)
}

fn is_right(alloc: Global, graph: &Graph, line: &str) -> Result<bool, NoMemory> {
    let (roots, rest) = line.split_once('|').unwrap_or((line, ""));
    let (set, told) = rest.split_once('|').unwrap_or((rest, ""));
    let roots = numbers(alloc, roots)?;
    let set = numbers(alloc, set)?;
    let holds = reach_check(graph, roots.as_slice(), set.as_slice());
    Ok(told == if holds { "holds" } else { "fails" })
}

/// The number of the first line that is wrong, or 0.
fn first_wrong(alloc: Global, graph: &Graph, lines: &str) -> Result<usize, NoMemory> {
    let mut wrong = 0;
    for (i, line) in lines.lines().enumerate() {
        if wrong == 0 && !is_right(alloc, graph, line)? {
            wrong = i.saturating_add(1);
        }
    }
    Ok(wrong)
}

fn wrong_lines(alloc: Global) -> Result<(usize, usize), NoMemory> {
    let empty = first_wrong(alloc, &Graph::new(alloc), EMPTY)?;
    let lines = first_wrong(alloc, &graph(alloc)?, LINES)?;
    Ok((empty, lines))
}

#[test]
fn sets_hold_the_roots_and_are_closed(rt: HostRuntime) {
    assert!(rt; matches!(wrong_lines(rt.alloc()), Ok((0, 0))));
}
