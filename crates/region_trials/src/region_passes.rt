// What passes see.

ghost use Rattle.std.specs.Prelude.{◌≡◌, []};
ghost use Rattle.region_trials.specs.FreePasses.{IsFree};

use crate::region_calls::{call, export};
use cross_thread_region::{Pass, Region};
use gc_graph::{Entry, Op, Reply};
use std::alloc::Global;
use std::sync::Wait;

/// Whether the first pass has seen one entry before another one's call is joined to it, and two after,
/// of which the second is that of the call.
fn brings_its_entry<R: Wait>(rt: &R, region: &Region, pass: &mut Pass, mut other: Pass) -> bool
    requires free { IsFree region.now.lock 0 pass.old }
    requires other { IsFree region.now.lock 4 other }
    requires slots { region.now.slots ≡ 2 }
{
    export(rt, region, pass, 0, 3, 30);
    call(rt, region, &mut other, 4, Op::Upgrade { from: 0, into: 1 });
    let before = region.entries(pass);
    region.join_pass(pass, other);
    before == 1 && region.entries(pass) == 2 && fourth_upgraded(rt, region, pass)
}

/// Whether entry 1 is that of pass 4, which upgraded slot 0 into slot 1.
fn fourth_upgraded<R: Wait>(rt: &R, region: &Region, pass: &mut Pass) -> bool
    requires { IsFree region.now.lock 0 pass.old }
{
    region.entries(pass) > 1
        && matches!(
            region.entry(rt, pass, 1),
            Entry {
                thread: 4,
                op: Op::Upgrade { from: 0, into: 1 },
                reply: Reply::Node(3),
            }
        )
}

fn is_right<R: Wait>(rt: &R, alloc: Global) -> bool {
    match Region::new(alloc, 2) {
        Ok((region, mut pass)) => {
            let other = region.split_pass(&mut pass, 4);
            brings_its_entry(rt, &region, &mut pass, other)
        }
        Err(_) => false,
    }
}

#[test]
fn joined_pass_brings_its_entries(rt: HostRuntime) {
    assert!(rt; is_right(&rt, rt.alloc()));
}
