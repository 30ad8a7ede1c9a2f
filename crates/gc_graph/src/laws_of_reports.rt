// The laws of the numbers in a report, as in laws.rt.

ghost use Rattle.gc_graph.specs.NumbersLaw.{LinesHaveNumbers, RunReadsBack};
ghost use Rattle.gc_graph.specs.SummaryLaw.{SummaryReadsBack};

/// The lines of a lawful run of commands in their ranges, and the end line after it, have numbers of
/// 64 bits; the commands are no more than a script can have.
pub fn lines_have_numbers()
    ensures { LinesHaveNumbers }
{}

/// So the report of such a run is read back into its lines, over any list of types that a script can
/// declare.
pub fn run_reads_back<T>()
    ensures { RunReadsBack T }
{}

/// The summary of such a run has numbers of 64 bits, and its line is read back.
pub fn summary_reads_back()
    ensures { SummaryReadsBack }
{}
