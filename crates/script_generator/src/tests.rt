// Generated scripts, by hand from the generator's description.

use super::scripts::{generate, next_number};
use gc_graph::{Command, NoMemory, Want};
use heap_script::{Script, number_below, read_script};
use std::alloc::Global;
use std::test::Fail;

// Of seed 1 and 8 turns, whose numbers leave 2, 2, 2, 1, 0, 0, 0 and 2.
const LINES: &str = "\
oilpan 1
type SSWP
type SE
new 0 0
copy 0 2
new 1 0
new 4 1
set 4 0 5
copy 4 5
new 6 0
set 6 0 1
pair 4 1 1 6
weak 1 1
drop 1
drop 4
drop 6
new 1 0
new 4 1
set 4 0 5
copy 4 5
new 6 0
set 6 0 1
pair 4 1 1 6
weak 2 1
drop 1
drop 4
drop 6
new 1 0
new 4 1
set 4 0 5
copy 4 5
new 6 0
set 6 0 1
pair 4 1 1 6
weak 3 1
drop 1
drop 4
drop 6
gc start
gc step 2
new 1 0
put 1 3 4
set 1 2 0
get 2 0 3
set 1 1 3
set 2 0 1
copy 1 2
drop 1
drop 3
gc finish precise
gc now precise
sweep all
new 1 0
put 1 3 5
set 1 2 0
get 0 0 3
set 1 1 3
set 0 0 1
copy 1 2
drop 1
drop 3
new 1 0
put 1 3 6
set 1 2 0
get 0 0 3
set 1 1 3
set 0 0 1
copy 1 2
drop 1
drop 3
new 1 0
put 1 3 7
set 1 2 0
get 0 0 3
set 1 1 3
set 0 0 1
copy 1 2
drop 1
drop 3
gc start
gc step 2
new 1 0
new 4 1
set 4 0 5
copy 4 5
new 6 0
set 6 0 1
pair 4 1 1 6
weak 8 1
drop 1
drop 4
drop 6
gc finish precise
gc now precise
sweep all
gc now precise
sweep all
";

// A seed, a count of turns, and how many commands they give.
const COUNTS: &str = "\
0 1 15
0 50000 483362
1 1 15
1 8 94
1 50000 483480
65536 1 13
65536 50000 450074
65537 1 15
65537 50000 483362
18446744073709551615 1 15
18446744073709551615 50000 483362
";

#[test]
fn numbers_of_seed_one_follow_each_other(rt: HostRuntime) -> Result<(), Fail> {
    let wanted = "149 11249 57305 38044 35283 24819 26463 18689";
    assert!(rt; follow(1, wanted));
    Ok(())
}

fn follow(first: u32, wanted: &str) -> bool {
    let mut number = first;
    for word in wanted.split(' ') {
        number = next_number(number % 65_537);
        if number_below(65_537, word.as_bytes()) != Some(number) {
            return false;
        }
    }
    true
}

#[test]
fn generated_script_is_the_one_of_its_lines(rt: HostRuntime) -> Result<(), Fail> {
    assert!(rt; has_lines(rt.alloc(), &generate(rt.alloc(), 1, 8)?));
    Ok(())
}

fn has_lines(alloc: Global, script: &Script) -> bool {
    match read_script(alloc, LINES.as_bytes(), 0) {
        Ok(read) => has_commands(&read, script) && has_types(&read, script),
        Err(_) => false,
    }
}

fn has_commands(read: &Script, script: &Script) -> bool {
    read.commands().len() == script.commands().len()
        && read
            .commands()
            .iter()
            .zip(script.commands())
            .all(|(one, other)| numbers_of(one) == numbers_of(other))
}

// The form of a command among those that are generated, counted from 1, and its numbers in their order.
fn numbers_of(command: &Command) -> (u32, u32, u32, u32, u64) {
    match *command {
        Command::New { p, t, e } => (1, p, t, e, 0),
        Command::Copy { p, q } => (2, p, q, 0, 0),
        Command::Set { p, f, q } => (3, p, f, q, 0),
        Command::Pair { p, f, k, v } => (4, p, f, k, u64::from(v)),
        Command::Weak { w, p } => (5, w, p, 0, 0),
        Command::Drop { p } => (6, p, 0, 0, 0),
        Command::Put { p, f, n } => (7, p, f, 0, n),
        Command::Get { p, f, q } => (8, p, f, q, 0),
        Command::GcStart => (9, 0, 0, 0, 0),
        Command::GcStep { n } => (10, n, 0, 0, 0),
        Command::GcFinish {
            want: Want::Precise,
        } => (11, 0, 0, 0, 0),
        Command::GcNow {
            want: Want::Precise,
        } => (12, 0, 0, 0, 0),
        Command::SweepAll => (13, 0, 0, 0, 0),
        _ => (0, 0, 0, 0, 0),
    }
}

fn has_types(read: &Script, script: &Script) -> bool {
    read.types().len() == script.types().len()
        && read.types().iter().zip(script.types()).all(|(one, other)| {
            one.fields() == other.fields() && one.callbacks() == other.callbacks()
        })
}

#[test]
fn scripts_have_their_counts(rt: HostRuntime) -> Result<(), Fail> {
    assert_eq!(rt; first_wrong(rt.alloc())?, None);
    Ok(())
}

/// The number of the first case with another count, counted from 1.
fn first_wrong(alloc: Global) -> Result<Option<u32>, NoMemory> {
    for (case, number) in COUNTS.lines().zip(1u32..) {
        if !has_count(alloc, case)? {
            return Ok(Some(number));
        }
    }
    Ok(None)
}

fn has_count(alloc: Global, case: &str) -> Result<bool, NoMemory> {
    let mut words = case.split(' ');
    let seed = words.next().unwrap_or("").parse().unwrap_or(7);
    let turns = number_below(50_001, words.next().unwrap_or("").as_bytes());
    let wanted = words.next().unwrap_or("").parse().ok();
    match turns {
        Some(turns) if turns > 0 => {
            let script = generate(alloc, seed, turns)?;
            Ok(Some(script.commands().len()) == wanted)
        }
        _ => Ok(false),
    }
}
