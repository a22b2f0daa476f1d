//! Laws of plan files, each as the contract of a call that does nothing: whoever needs one calls it.
ghost use Rattle.plan_text.specs.Grammar.{GivesItsRuns, NamesTheFirstBadLine, CountsItsTicks};

/// A text gives runs exactly where its first line is that of a plan and each other line is right, the runs are those that
/// the lines say, in their order, and their ticks aren't too many.
pub fn a_plan_gives_its_runs()
    ensures { GivesItsRuns }
{}

/// A text is bad at a line exactly where that line is the first that isn't right: line 1 where it isn't that of a plan, or
/// where there is none.
pub fn a_plan_names_its_first_bad_line()
    ensures { NamesTheFirstBadLine }
{}

/// A text is too large exactly where each of its lines is right, and their ticks are more than a plan may have; the size is
/// the number of the ticks, as 64 bits tell it.
pub fn a_plan_counts_its_ticks()
    ensures { CountsItsTicks }
{}
