//! Laws of the debugger's lines, as the contracts of calls that do nothing: whoever needs one calls it, or cites the
//! statement that it names.
ghost use Rattle.kdb_cmd.specs.Limits.{LinesKeepTheLimits};
ghost use Rattle.kdb_cmd.specs.Laws.{RefusedLinesChangeNothing, StepsBeginWhereAHartRuns};

/// No line changes the segments, the symbols or the number of harts, and none takes breakpoint places, variables or macros
/// past their limits; breakpoints stay apart, and each in text.
#[tactic(auto, using(crate::proofs::Keeps::line_keeps))]
pub fn lines_keep_the_limits()
    ensures { LinesKeepTheLimits }
{}

/// A line that is refused prints its diagnostic and changes nothing.
#[tactic(auto, using(crate::proofs::RefusedLines::refused_lines))]
pub fn refused_lines_change_nothing()
    ensures { RefusedLinesChangeNothing }
{}

/// A line that leaves the session for one instruction leaves the processor that was entered on not halted.
#[tactic(auto, using(crate::proofs::Steps::line_steps))]
pub fn steps_begin_where_a_hart_runs()
    ensures { StepsBeginWhereAHartRuns }
{}
