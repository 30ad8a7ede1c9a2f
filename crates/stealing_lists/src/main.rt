//! # A list that two threads share
//!
//! What it is: a program of its own over the marking lists. One thread puts items on its list while
//! another one steals them, and then the first takes the list back and counts.
//!
//! The parts: `main`, and `shared_out`, in which the threads are.
//!
//! What is proved: as many items were taken or are left as were put.
//!
//! What is only tested or not said: how many of them the other thread gets, and that memory suffices.
#![tactic(auto)]

mod sharing;

use sharing::shared_out;
use std::io;

const ITEMS: u32 = 10_000;

fn main(rt: HostRuntime) -> io::Result<()> {
    match shared_out(&rt, rt.alloc(), ITEMS) {
        Ok(tally) => println!(rt;
            "{} items put, {} taken or left",
            tally.pushed,
            tally.taken + tally.left
        ),
        Err(_) => println!(rt; "no memory"),
    }
}
