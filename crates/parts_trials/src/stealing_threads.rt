// An owner and two shares, each on a thread of its own.

ghost use Rattle.std.specs.Prelude.{◌≡◌, length};
ghost use Rattle.std.specs.Thread.{IsSync};
ghost use Rattle.mark_worklist.specs.Shares.{IsSameShare};
ghost use Rattle.mark_worklist.specs.Joining.{AreAllShares, IsSameList};

use gc_graph::NoMemory;
use mark_worklist::{Share, SharedList};
use std::alloc::Global;
use std::thread;
use std::thread::Threads;

/// How many items each puts.
const ITEMS: u32 = 3000;

/// How many items were taken, and their sum.
#[derive(Clone, Copy, Drop)]
struct Took {
    items: u64,
    sum: u64,
}

impl Took {
    fn none() -> Took {
        Took { items: 0, sum: 0 }
    }

    fn add(&mut self, item: Option<u32>) {
        if let Some(a) = item {
            self.items = self.items.wrapping_add(1);
            self.sum = self.sum.wrapping_add(a as u64);
        }
    }

    fn with(self, other: Took) -> Took {
        Took {
            items: self.items.wrapping_add(other.items),
            sum: self.sum.wrapping_add(other.sum),
        }
    }
}

/// Steals at each third turn, and pops at each third but one.
fn take(share: &mut Share, turn: u32) -> Option<u32>
    ensures { IsSameShare share.old share.new }
{
    match turn % 3 {
        0 => share.steal(),
        1 => share.pop(),
        _ => None,
    }
}

/// Puts items, from this one on, and takes some between.
fn work(mut share: Share, first: u32) -> (Share, Took)
    ensures { IsSameShare share result.0 }
{
    let mut took = Took::none();
    for turn in 0..ITEMS {
        let _ = share.push(first.wrapping_add(turn));
        took.add(take(&mut share, turn));
    }
    (share, took)
}

/// The same of the owner, who steals at each second turn.
fn own(mut list: SharedList, first: u32) -> (SharedList, Took)
    ensures { IsSameList list result.0 }
{
    let mut took = Took::none();
    for turn in 0..ITEMS {
        let _ = list.push(first.wrapping_add(turn));
        if turn % 2 == 0 {
            took.add(list.steal());
        }
    }
    (list, took)
}

/// Two shares at work, each on a thread of its own.
fn both<R: Threads + Sync>(rt: &R, one: Share, two: Share) -> (Share, Share, Took)
    ensures one { IsSameShare one result.0 }
    ensures two { IsSameShare two result.1 }
{
    let ((one, first), (two, second)) = thread::join(
        rt,
        move || -> (Share, Took)
            ensures { IsSameShare one result.0 }
        { work(one, ITEMS) },
        move || -> (Share, Took)
            ensures { IsSameShare two result.0 }
        { work(two, 2 * ITEMS) },
    );
    (one, two, first.with(second))
}

/// The owner at work beside them, on a third thread.
fn all_three<R: Threads + Sync>(
    rt: &R,
    list: SharedList,
    one: Share,
    two: Share,
) -> (SharedList, Share, Share, Took)
    ensures list { IsSameList list result.0 }
    ensures one { IsSameShare one result.1 }
    ensures two { IsSameShare two result.2 }
{
    let ((list, took), (one, two, others)) = thread::join(
        rt,
        move || -> (SharedList, Took)
            ensures { IsSameList list result.0 }
        { own(list, 0) },
        move || -> (Share, Share, Took)
            requires { IsSync R.row }
            ensures { IsSameShare one result.0 × IsSameShare two result.1 }
        { both(rt, one, two) },
    );
    (list, one, two, took.with(others))
}

/// Whether all items that three threads put were taken once in all, after the owner took in the shares
/// and popped what was left.
fn run<R: Threads + Sync>(rt: &R, alloc: Global) -> Result<bool, NoMemory> {
    let (list, mut shares) = SharedList::new(alloc, 2)?;
    let two = shares.remove(1);
    let one = shares.remove(0);
    let (list, one, two, took) = all_three(rt, list, one, two);
    shares.push_reserved(two);
    shares.push_reserved(one);
    Ok(is_whole(list, shares, took))
}

/// Whether what is told of the lists is what was put, taken and left.
fn is_whole(mut list: SharedList, shares: Vec<Share>, took: Took) -> bool
    requires { AreAllShares list shares.items }
{
    let tally = list.finish(shares);
    let mut rest = Took::none();
    for _item in 0..tally.left {
        rest.add(list.pop());
    }
    let all = took.with(rest);
    let put = 3 * ITEMS as u64;
    let told = (tally.pushed, tally.taken, tally.left) == (put, took.items, rest.items);
    let none = list.pop().is_none() && list.refused() == 0;
    told && none && all.items == put && all.sum == put * (put - 1) / 2
}

#[test]
fn each_item_is_taken_once(rt: HostRuntime) {
    assert!(rt; matches!(run(&rt, rt.alloc()), Ok(true)));
}
