//! Laws of the planted machine, each as the contract of a call that does nothing: whoever needs one calls it, or cites the
//! statement that it names.
ghost use Rattle.plant_mach.specs.Laws.{ListsJoin, StartsAreOrderly, EntriesKeepOrder, NeverLegal, EntriesLeaveOthers, EntriesKeep};
ghost use Rattle.plant_mach.specs.Reading.{LegalListsAreRuns, LegalListsPrintTranscripts};

/// What two lists of entries do, one after the other, is what the first does and then the second.
pub fn lists_join()
    ensures { ListsJoin }
{}

/// The machine at the start is in order.
pub fn starts_are_orderly()
    ensures { StartsAreOrderly }
{}

/// Every legal entry keeps the order.
pub fn entries_keep_order()
    ensures { EntriesKeepOrder }
{}

/// No entry is legal once the run has ended, none ends it as a plan's end does, none names a hart that isn't there.
pub fn never_legal()
    ensures { NeverLegal }
{}

/// An entry that is no line, and no step or interrupt of a hart, leaves that hart's context, but for the pending interrupt and
/// the reservation.
pub fn entries_leave_others()
    ensures { EntriesLeaveOthers }
{}

/// A legal entry keeps the number of harts, the segments, the symbols, the limit of steps, the number of the script's lines
/// and the limits of what the debugger holds.
pub fn entries_keep()
    ensures { EntriesKeep }
{}

/// Every legal list of entries reads as a run of the atomic machine: the same state, and the same text, which is that run's
/// transcript but for the line of the ending.
pub fn legal_lists_are_runs()
    ensures runs { LegalListsAreRuns }
    ensures transcripts { LegalListsPrintTranscripts }
{}
