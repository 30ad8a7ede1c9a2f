// An owner that publishes totals, and two threads that read them.

ghost use Rattle.std.specs.Prelude.{◌≡◌, ◌<◌, ◌≤◌, ◌+◌};
ghost use Rattle.std.specs.Thread.{IsSync};

use gc_graph::NoMemory;
use heap_stats::{Board, BoardPass, Publisher, Totals};
use std::alloc::Global;
use std::sync::Wait;
use std::thread;
use std::thread::Threads;

/// The owner publishes in so many rounds, so often in each, with ordinals from 1 on.
const ROUNDS: u64 = 100;

const TIMES: u64 = 200;

/// The ordinal that is published last.
const LAST: u64 = 20_000;

/// What a thread read.
#[derive(Clone, Copy, Drop)]
struct Told {
    /// The greatest ordinal.
    last: u64,
    /// How many reads found a greater ordinal than those before.
    newer: u64,
    /// How many found a smaller one, or numbers that weren't published together.
    wrong: u64,
}

/// The totals that are published with this ordinal.
pub(crate) fn totals_at(ordinal: u64) -> Totals
    ensures { result.ordinal ≡ ordinal }
{
    Totals {
        ordinal,
        objects: ordinal.wrapping_mul(3),
        used: ordinal.wrapping_mul(5),
        finalised: ordinal.wrapping_mul(7),
    }
}

/// One round of the owner, whose totals come behind this ordinal.
fn publish_often<R: Wait>(rt: &R, board: &Board, publisher: &mut Publisher, behind: u64)
    requires board { publisher.old.board ≡ board.now }
    requires last { publisher.old.last.ordinal ≤ behind }
    requires few { behind ≤ 100_000 }
    ensures board { publisher.new.board ≡ board.now }
    ensures last { publisher.new.last.ordinal ≤ behind + 200 }
{
    for i in 0..TIMES {
        board.publish(rt, publisher, totals_at(behind + i + 1));
    }
}

/// Waits until a reader tells that it has read this ordinal or a greater one.
fn wait_for<R: Wait>(rt: &R, echo: &Board, pass: &mut BoardPass, ordinal: u64)
    requires { pass.old.board ≡ echo.now }
    ensures { pass.new.board ≡ echo.now }
{
    for _ in rt.forever() {
        if echo.read(rt, pass).ordinal >= ordinal {
            return;
        }
        thread::yield_now();
    }
    unreachable!()
}

/// The rounds of the owner. It ends each once both threads have read totals of that round, so that none of
/// the three is done before another one begins.
fn publish_in_rounds<R: Wait>(
    rt: &R,
    board: &Board,
    mut publisher: Publisher,
    echoes: (&Board, &Board),
    passes: (BoardPass, BoardPass),
) -> Publisher
    requires board { publisher.board ≡ board.now }
    requires zero { publisher.last.ordinal ≡ 0 }
    requires one { passes.0.board ≡ echoes.0.now }
    requires two { passes.1.board ≡ echoes.1.now }
    ensures { result.board ≡ board.entry.now }
{
    let (mut one, mut two) = passes;
    for round in 0..ROUNDS {
        publish_often(rt, board, &mut publisher, round * TIMES);
        wait_for(rt, echoes.0, &mut one, round * TIMES + 1);
        wait_for(rt, echoes.1, &mut two, round * TIMES + 1);
    }
    publisher
}

/// Reads until the totals published last are there, and tells the owner each ordinal that is greater than
/// those before.
fn read_all<R: Wait>(
    rt: &R,
    board: &Board,
    mut pass: BoardPass,
    echo: &Board,
    mut teller: Publisher,
) -> (BoardPass, Told)
    requires board { pass.board ≡ board.now }
    requires echo { teller.board ≡ echo.now }
    requires zero { teller.last.ordinal ≡ 0 }
    ensures { result.0.board ≡ board.entry.now }
{
    let mut told = Told {
        last: 0,
        newer: 0,
        wrong: 0,
    };
    for _ in rt.forever() {
        let read = board.read(rt, &mut pass);
        if read.ordinal < told.last || read != totals_at(read.ordinal) {
            told.wrong = told.wrong.wrapping_add(1);
        }
        if read.ordinal > told.last {
            told.newer = told.newer.wrapping_add(1);
            told.last = read.ordinal;
            echo.publish(rt, &mut teller, read);
        }
        if told.last >= LAST {
            return (pass, told);
        }
        thread::yield_now();
    }
    unreachable!()
}

/// Two readers at once, each with its pass and with the board on which it tells what it read.
fn both_read<R: Threads + Wait + Sync>(
    rt: &R,
    board: &Board,
    passes: (BoardPass, BoardPass),
    echoes: (&Board, &Board),
    tellers: (Publisher, Publisher),
) -> ((BoardPass, Told), (BoardPass, Told))
    requires passes { (passes.0.board ≡ board.now) × (passes.1.board ≡ board.now) }
    requires tellers { (tellers.0.board ≡ echoes.0.now) × (tellers.1.board ≡ echoes.1.now) }
    requires zeros { (tellers.0.last.ordinal ≡ 0) × (tellers.1.last.ordinal ≡ 0) }
    ensures { (result.0.0.board ≡ board.now) × (result.1.0.board ≡ board.now) }
{
    let (one, two) = passes;
    let (first, second) = tellers;
    let (a, b) = echoes;
    thread::join(
        rt,
        move || -> (BoardPass, Told)
            requires pass { one.board ≡ board.now }
            requires echo { first.board ≡ a.now }
            requires zero { first.last.ordinal ≡ 0 }
            ensures { result.0.board ≡ board.entry.now }
        { read_all(rt, board, one, a, first) },
        move || -> (BoardPass, Told)
            requires pass { two.board ≡ board.now }
            requires echo { second.board ≡ b.now }
            requires zero { second.last.ordinal ≡ 0 }
            ensures { result.0.board ≡ board.entry.now }
        { read_all(rt, board, two, b, second) },
    )
}

/// The owner and two readers at once: what the readers read, and the totals that a pass reads which is
/// lent once all are done.
fn run<R: Threads + Wait + Sync>(rt: &R, alloc: Global) -> Result<(Told, Told, Totals), NoMemory> {
    let (board, mut publisher) = Board::new(alloc)?;
    let (a, mut first) = Board::new(alloc)?;
    let (b, mut second) = Board::new(alloc)?;
    let passes = (board.lend(&mut publisher), board.lend(&mut publisher));
    let echoed = (a.lend(&mut first), b.lend(&mut second));
    let (here, there) = (&board, (&a, &b));
    let tellers = (first, second);
    let (mut publisher, ((one, told), (two, other))) = thread::join(
        rt,
        move || -> Publisher
            requires board { publisher.board ≡ here.now }
            requires zero { publisher.last.ordinal ≡ 0 }
            requires one { echoed.0.board ≡ there.0.now }
            requires two { echoed.1.board ≡ there.1.now }
            ensures { result.board ≡ here.entry.now }
        { publish_in_rounds(rt, here, publisher, there, echoed) },
        move || -> ((BoardPass, Told), (BoardPass, Told))
            requires sync { IsSync R.row }
            requires passes { (passes.0.board ≡ here.now) × (passes.1.board ≡ here.now) }
            requires tellers { (tellers.0.board ≡ there.0.now) × (tellers.1.board ≡ there.1.now) }
            requires zeros { (tellers.0.last.ordinal ≡ 0) × (tellers.1.last.ordinal ≡ 0) }
            ensures { (result.0.0.board ≡ here.entry.now) × (result.1.0.board ≡ here.entry.now) }
        { both_read(rt, here, passes, there, tellers) },
    );
    board.take_back(rt, &mut publisher, one);
    board.take_back(rt, &mut publisher, two);
    let mut late = board.lend(&mut publisher);
    let read = board.read(rt, &mut late);
    Ok((told, other, read))
}

#[test]
fn readers_find_what_was_published_together_and_never_older(rt: HostRuntime) {
    let Ok((told, other, late)) = run(&rt, rt.alloc()) else {
        assert!(rt; false);
        return;
    };
    assert!(rt; told.wrong == 0 && other.wrong == 0);
    assert!(rt; told.newer >= ROUNDS && other.newer >= ROUNDS);
    assert!(rt; told.last == LAST && other.last == LAST);
    assert!(rt; late == totals_at(LAST));
}
