// The laws of sweeping by pages. Whoever calls one of these has its law; none of them does anything.

ghost use Rattle.gc_graph.specs.LineOrderLaw.{FinalisedAreToldFirst};
ghost use Rattle.gc_graph.specs.SweepLaw.{SweepsJoin, SweepsSplit, SweepIsOne, PlacedInLastPage, PlacementIsOne};
ghost use Rattle.gc_graph.specs.SweptPagesLaw.{SweepsTellTheirPages};

/// A sweep to a page and then to a later one is the sweep to the later one: it finalises the numbers
/// of both, in this order. Each sweep comes by each page on its way, and has one outcome.
pub fn sweeps_go_by_pages()
    ensures join { SweepsJoin }
    ensures split { SweepsSplit }
    ensures one { SweepIsOne }
{}

/// Where a new object's place wanted pages to be swept, and the object fits in those that are swept
/// then, it lies in the last of them: it fitted in none before.
pub fn placed_in_last_page()
    ensures { PlacedInLastPage }
{}

/// A new object has one place at most, with one list of numbers that are finalised on the way.
pub fn placement_is_one()
    ensures { PlacementIsOne }
{}

/// `sweep n` and `sweep all` are refused where no sweep is open. Else they sweep so many pages more,
/// or those that are left; they tell how many are swept, and as finalised just the nodes that were
/// dead in these, of which none is left. The sweep is over where these are all pages.
pub fn sweeps_tell_their_pages()
    ensures { SweepsTellTheirPages }
{}

/// Of a command's lines those on finalised nodes come first, and only one that may sweep has some.
/// Then comes one line more, or several at a pause and at a join.
pub fn finalised_are_told_first()
    ensures { FinalisedAreToldFirst }
{}
