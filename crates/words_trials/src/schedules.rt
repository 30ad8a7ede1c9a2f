// Schedules for small heaps, a line each. Words and answers were worked out by hand: a header is
// 131072 for each word of the size, 8 for each type, 4 where it was traced, 2 where it is marked,
// and 1.

ghost use Rattle.std.specs.Prelude.{◌≡◌, ◌*◌, ◌/◌, IfOk};
ghost use Rattle.marker_core.specs.Matching.{AreTypes};

use core_steps::{CoreFault, after, idle_state};
use gc_graph::{Kind, NoMemory};
use marker_core::{CoreState, CoreStep, List, Why};
use std::alloc::Global;

/// On 64 words a pair holder at 0, whose key is the object at 4 and whose value is the one at 7,
/// which names its key.
const GRAPH: &str = "fill 0 524289; fill 1 0; fill 2 0; fill 3 0; publish 0; \
    fill 4 393225; fill 5 1; fill 6 0; publish 4; \
    fill 7 393225; fill 8 2; fill 9 0; publish 7; store 9 5; store 3 8; store 2 5";

/// What follows the graph: all steps are taken, or all but the last one. `load` reads a word, `weak`
/// reads an object weakly, and `trace` reads for the hand; `begin` has two roots; `claim`, `unmark`
/// and `mark` are the mutator's, and the steps that first name a marker are that marker's.
const SCHEDULES: &str = "\
# steps while no marking goes on
load 65 | taken
load 66 | refused
weak 4 | taken
weak 5 | refused
trace 2 | refused
fill 10 5 | taken
fill 64 5 | refused
fill 9 5 | refused
store 6 8 | taken
store 5 8 | refused
store 6 9 | refused
store 2 0 | refused
retract 4 | refused
mark 0 | refused
claim 0 | refused
unmark 0 | taken
unmark 1 | refused
split | refused
end | taken
begin 0 7 | taken
store 3 0; begin 0 7 | refused
# objects are published whole
fill 20 393225; fill 21 3; fill 22 0; publish 20 | taken
fill 20 393225; fill 21 3; publish 20 | refused
fill 20 393225; fill 21 2; fill 22 0; publish 20 | refused
fill 20 393225; fill 21 3; fill 22 5; publish 20 | refused
fill 20 393227; fill 21 3; fill 22 0; publish 20 | refused
fill 20 393233; fill 21 3; fill 22 0; publish 20 | refused
fill 20 262153; fill 21 3; publish 20 | refused
fill 62 393225; fill 63 3; publish 62 | refused
# steps while marking goes on
begin 0 7; begin 0 7 | refused
begin 0 7; mark 0 | taken
begin 0 7; mark 1 | refused
begin 7 7; mark 0 | refused
begin 0 7; claim 0 | taken
begin 0 7; claim 1 | refused
begin 0 7; mark 0; claim 0; claim 0 | refused
begin 0 7; unmark 0 | refused
begin 0 7; retract 4 | refused
begin 0 7; store 6 8 | taken
begin 0 7; store 6 8; store 6 0 | refused
begin 0 7; store 6 8; mark 7; store 6 0 | taken
begin 0 7; mark 0; claim 0; store 6 0 | refused
begin 0 7; store 2 8 | refused
begin 0 7; mark 7; store 2 8 | taken
begin 7 7; store 3 0 | refused
begin 4 4; store 6 8 | refused
# marking ends with nothing open
begin 0 7; mark 0; end | refused
begin 0 7; mark 0; claim 0; end | refused
begin 0 7; store 6 8; end | refused
begin 0 0; mark 0; claim 0; trace 2; trace 4; end | taken
begin 0 0; mark 0; claim 0; trace 3 | refused
begin 0 0; end | taken
begin 0 7; mark 0; claim 0; trace 2; trace 4; mark 4; claim 4; trace 6; end | refused
begin 0 0; mark 0; claim 0; trace 2; trace 4; end; retract 4 | refused
begin 0 0; mark 0; claim 0; trace 2; trace 4; end; store 3 0; store 2 0; retract 4 | taken
# markers know before they claim
begin 0 7; join 0 | refused
begin 0 7; split; join 0 | taken
begin 0 7; split; join 0; join 0 | refused
begin 0 7; split; join 1 | refused
begin 0 7; split; bit 0 4 | taken
begin 0 7; split; bit 0 64 | refused
begin 0 7; bit 0 4 | refused
begin 0 7; split; look 0 4 | refused
begin 0 7; split; bit 0 4; look 0 4 | taken
begin 0 7; split; bit 0 5; look 0 5 | refused
begin 0 7; split; mark 7; bit 0 7; look 0 7; claim_as 0 7 393227 | taken
begin 0 7; split; mark 7; bit 0 7; claim_as 0 7 393227 | refused
begin 0 7; split; bit 0 7; look 0 7; claim_as 0 7 393225 | refused
begin 0 7; split; mark 7; bit 0 7; look 0 7; claim_as 0 7 393231 | refused
begin 0 7; split; mark 7; bit 0 7; look 0 7; claim_as 0 7 393227; claim_as 0 7 393227 | refused
# markers trace what they claimed
begin 0 7; split; mark 7; bit 0 7; look 0 7; claim_as 0 7 393227; field 0 9 | taken
begin 0 7; split; mark 7; bit 0 7; look 0 7; claim_as 0 7 393227; field 0 8 | refused
begin 0 7; split; mark 7; bit 0 7; look 0 7; claim_as 0 7 393227; field 0 9; mark_as 0 4 | taken
begin 0 7; split; mark 7; bit 0 7; look 0 7; claim_as 0 7 393227; mark_as 0 4 | refused
begin 0 7; split; mark 7; bit 0 7; look 0 7; claim_as 0 7 393227; field 0 9; mark_as 0 7 | refused
begin 0 7; split; mark 7; bit 0 7; look 0 7; claim_as 0 7 393227; join 0 | refused
begin 0 7; split; poll 0 | taken
begin 0 7; poll 0 | refused
begin 0 7; split; join 0; poll 0 | refused
begin 0 7; split; mark 0; end | taken
begin 0 7; split; split; mark 7; bit 0 7; bit 1 7; look 0 7; look 1 7; claim_as 0 7 393227; \
claim_as 1 7 393227 | taken";

/// The same objects on 512 words, at 0, 256 and 259.
const EPHEMERON: &str = "fill 0 524289; fill 1 0; fill 2 0; fill 3 0; publish 0; \
    fill 256 393225; fill 257 1; fill 258 0; publish 256; \
    fill 259 393225; fill 260 2; fill 261 0; publish 259; \
    store 261 257; store 3 260; store 2 257";

/// What follows that graph, and then the dead, the marked and the traced places: the value of an
/// unmarked key dies, and a marker keeps that of a marked one.
const ENDS: &str = "\
begin 0 0; mark 0; claim 0; trace 2; trace 256; end | [256, 259] [0] [0]
begin 0 256; split; mark 0; mark 256; bit 0 0; look 0 0; claim_as 0 0 524291; field 0 2; look 0 256; \
field 0 3; mark_as 0 259; look 0 256; claim_as 0 256 393227; field 0 258; look 0 259; \
claim_as 0 259 393227; field 0 261; mark_as 0 256; join 0; end | [] [0, 256, 259] [0, 256, 259]";

/// The number at this position of a step, which has its name at 0. Where there is none it is one
/// that no heap has as an address.
fn number(step: &str, at: usize) -> u32 {
    let word = step.split(' ').nth(at).unwrap_or("");
    word.parse::<u32>().unwrap_or(u32::MAX)
}

/// The header or the word that a step has at this position.
fn word(step: &str, at: usize) -> u64 {
    let word = step.split(' ').nth(at).unwrap_or("");
    word.parse::<u64>().unwrap_or(u64::MAX)
}

fn stop(alloc: Global, on: bool, step: &str) -> Result<CoreStep, NoMemory> {
    let mut roots = List::new(alloc);
    if !on {
        roots.push(number(step, 1))?;
        roots.push(number(step, 2))?;
    }
    Ok(CoreStep::Stop { on, roots })
}

/// The step that a text names, where it names one.
fn step_of(alloc: Global, step: &str) -> Result<Option<CoreStep>, NoMemory> {
    let step = match step.split(' ').next().unwrap_or("") {
        "begin" => Some(stop(alloc, false, step)?),
        "end" => Some(stop(alloc, true, step)?),
        _ => step_without_roots(step),
    };
    Ok(step)
}

fn step_without_roots(step: &str) -> Option<CoreStep> {
    let a = number(step, 1);
    let marker = a;
    let second = number(step, 2);
    Some(match step.split(' ').next().unwrap_or("") {
        "load" => CoreStep::Load { a, why: Why::Read },
        "weak" => CoreStep::Load { a, why: Why::Weak },
        "trace" => CoreStep::Load { a, why: Why::Trace },
        "fill" => CoreStep::Fill {
            a,
            w: word(step, 2),
        },
        "store" => CoreStep::Store {
            a,
            w: word(step, 2),
        },
        "publish" => CoreStep::Publish { a },
        "retract" => CoreStep::Retract { a },
        "mark" => CoreStep::Mark { a },
        "claim" => CoreStep::Header { a, claim: true },
        "unmark" => CoreStep::Header { a, claim: false },
        "split" => CoreStep::Split,
        "join" => CoreStep::Join { marker },
        "bit" => CoreStep::Bit { marker, a: second },
        "look" => CoreStep::Look { marker, a: second },
        "claim_as" => CoreStep::Claim {
            marker,
            a: second,
            header: word(step, 3),
        },
        "field" => CoreStep::Field { marker, a: second },
        "mark_as" => CoreStep::MarkerMark { marker, a: second },
        "poll" => CoreStep::Poll { marker },
        _ => return None,
    })
}

/// The steps of a text, where each is one.
fn push_steps(alloc: Global, steps: &mut Vec<CoreStep>, text: &str) -> Result<bool, NoMemory> {
    for step in text.split("; ") {
        match step_of(alloc, step)? {
            Some(step) => steps.push(step)?,
            None => return Ok(false),
        }
    }
    Ok(true)
}

/// Type 0 has a pair, type 1 a strong field.
fn two_types(alloc: Global) -> Result<List<List<Kind>>, NoMemory>
    ensures { IfOk result AreTypes }
{
    let mut types = List::new(alloc);
    types.push(List::from(Vec::from_slice(alloc, &[Kind::Pair])?))?;
    types.push(List::from(Vec::from_slice(alloc, &[Kind::Strong])?))?;
    Ok(types)
}

/// What a list of steps comes to, where each text of it is a step.
fn ends(alloc: Global, count: u32, steps: &[CoreStep], told: &str) -> Result<bool, NoMemory>
    requires { count ≡ 64 * (count / 64) }
{
    let start = idle_state(alloc, count, two_types(alloc)?)?;
    match after(alloc, start, steps) {
        Ok(state) => ends_as(alloc, &state, told),
        Err(CoreFault::NotAllowed { at }) => {
            Ok(told == "refused" && at.checked_add(1) == Some(steps.len() as u64))
        }
        Err(CoreFault::NoMemory) => Err(NoMemory),
    }
}

/// The state is as told: any one, or with these dead, marked and traced places after marking.
fn ends_as(alloc: Global, state: &CoreState, told: &str) -> Result<bool, NoMemory> {
    if told == "taken" {
        return Ok(true);
    }
    let view = &state.mutator;
    let text = format!(in alloc;
        "{:?} {:?} {:?}",
        view.dead.as_slice(),
        view.marked.as_slice(),
        view.traced.as_slice()
    )?;
    Ok(!view.on && text.as_str() == told)
}

/// After a graph on so many words these steps come to what is told.
fn comes_to(alloc: Global, count: u32, graph: &str, then: &str, told: &str) -> bool
    requires { count ≡ 64 * (count / 64) }
{
    let mut steps = Vec::new(alloc);
    matches!(push_steps(alloc, &mut steps, graph), Ok(true))
        && matches!(push_steps(alloc, &mut steps, then), Ok(true))
        && matches!(ends(alloc, count, &steps, told), Ok(true))
}

/// A line's steps do so, where it isn't one that says what the next lines are about.
fn is_so(alloc: Global, count: u32, graph: &str, line: &str) -> bool
    requires { count ≡ 64 * (count / 64) }
{
    match line.split_once(" | ") {
        Some((then, told)) => comes_to(alloc, count, graph, then, told),
        None => line.starts_with("# "),
    }
}

/// The number of the first line of which this isn't so.
fn first_wrong(alloc: Global, count: u32, graph: &str, lines: &str) -> Option<u32>
    requires { count ≡ 64 * (count / 64) }
{
    for (line, number) in lines.lines().zip(1u32..) {
        if !is_so(alloc, count, graph, line) {
            return Some(number);
        }
    }
    None
}

#[test]
fn schedules_are_taken_or_their_last_step_is_refused(rt: HostRuntime) {
    assert_eq!(rt; first_wrong(rt.alloc(), 64, GRAPH, SCHEDULES), None);
    assert_eq!(rt; first_wrong(rt.alloc(), 512, EPHEMERON, ENDS), None);
}
