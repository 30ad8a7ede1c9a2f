//! # Trials of scripts, reports and runs
//!
//! What it is: the tests of `script_run`, of `heap_script` and of the crates of text below it that no
//! file of a case can hold, and a program for trials by chance. It runs a script as `cppgc_main` does,
//! at a gate that holds the threads of the heap for drawn times. Its first word is the seed of these
//! times, and the others are those of `cppgc_main`. All this stands in a crate of its own, so that no
//! other crate waits for it.
//!
//! The parts: `main` and the words of the command line, `delays` (the gate). The tests, each file named
//! for what it tries. Of text: `held_text`, `adapters`, `reading`, `printing`, `pieces`, `faults` and
//! `bytes` with `fault_cases`. Of runs: `runs`, `statuses`, `limits`, `prefixes`, `callback_calls`,
//! `failing_devices`. Of markers: `held`, `joined`, `schedules`, and `beside`. Of the threads of a
//! script: `threads`, `upgrades`, and `joined` too. `settled` has runs that write the same at each
//! schedule, and `lawful` says what a report beside markers and threads may say. `rows` reads the
//! tables of the others.
//!
//! What is proved: each call is safe, and `main` returns. The gate waits for nobody. It has no
//! contract, so what is proved of a run rests on nothing that it does.
//!
//! What is only tested or not said: each expected value was worked out by hand. Which schedules the
//! delays lead to is not said; `examples/delays` judges the report of each.
#![tactic(auto)]

#[cfg(test)]
mod adapters;
#[cfg(test)]
mod beside;
#[cfg(test)]
mod bytes;
#[cfg(test)]
mod callback_calls;
mod delays;
#[cfg(test)]
mod failing_devices;
#[cfg(test)]
mod fault_cases;
#[cfg(test)]
mod faults;
#[cfg(test)]
mod held;
#[cfg(test)]
mod held_text;
#[cfg(test)]
mod joined;
#[cfg(test)]
mod lawful;
#[cfg(test)]
mod limits;
#[cfg(test)]
mod pieces;
#[cfg(test)]
mod prefixes;
#[cfg(test)]
mod printing;
#[cfg(test)]
mod reading;
#[cfg(test)]
mod rows;
#[cfg(test)]
mod runs;
#[cfg(test)]
mod schedules;
#[cfg(test)]
mod settled;
#[cfg(test)]
mod statuses;
#[cfg(test)]
mod threads;
#[cfg(test)]
mod upgrades;

use delays::Delays;
use heap_script::{NoMemory, Sink, Source};
use script_run::{Ran, Status, StdinSource, StdoutSink, end, run_program_behind};
use std::alloc::Global;
use std::env;
use std::io::ErrorKind;
use std::process::ExitCode;
use std::sync::Wait;
use std::thread::Threads;

/// The seed, and the words behind it.
#[derive(Drop)]
struct Words {
    seed: u64,
    others: Vec<String>,
}

/// The words after the program's name. Where the system can't give them, memory is wanting or
/// they are no text.
fn words_of(rt: &HostRuntime) -> Result<Words, Status> {
    let mut args = match env::args(rt) {
        Ok(args) => args,
        Err(error) => {
            return match error.kind() {
                ErrorKind::OutOfMemory => Err(Status::NoMemory),
                _ => Err(Status::Usage),
            };
        }
    };
    let _program = args.next();
    let seed = match args.next() {
        Some(word) => word.parse::<u64>().ok(),
        None => None,
    };
    let mut others = Vec::new(rt.alloc());
    for word in args {
        if others.push(word).is_err() {
            return Err(Status::NoMemory);
        }
    }
    match seed {
        Some(seed) => Ok(Words { seed, others }),
        None => Err(Status::Usage),
    }
}

/// Runs what the source says, at the gate of the seed.
fn run_held_up<R: Threads + Wait + Copy + Send + 'static, S: Source, K: Sink>(
    rt: &R,
    alloc: Global,
    words: &Words,
    source: &mut S,
    sink: &mut K,
) -> Result<Ran, NoMemory> {
    let gate = Delays::shared(alloc, words.seed)?;
    run_program_behind(rt, alloc, &words.others, source, sink, &gate)
}

/// How the run ends.
fn status_of<R: Threads + Wait + Copy + Send + 'static, S: Source, K: Sink>(
    rt: &R,
    alloc: Global,
    words: &Words,
    source: &mut S,
    sink: &mut K,
) -> Status {
    match run_held_up(rt, alloc, words, source, sink) {
        Ok(ran) => ran.status,
        Err(_) => Status::NoMemory,
    }
}

fn main(rt: HostRuntime) -> ExitCode {
    let mut source = StdinSource::over(rt.stdin());
    let mut sink = StdoutSink::over(rt.stdout());
    let status = match words_of(&rt) {
        Ok(words) => status_of(&rt, rt.alloc(), &words, &mut source, &mut sink),
        Err(status) => status,
    };
    let ending = end(status, &mut rt.stderr());
    ExitCode::from(ending.exit_status)
}
