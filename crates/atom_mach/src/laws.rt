//! Laws of the atomic machine, each as the contract of a call that does nothing: whoever needs one calls it, or cites the
//! statement that it names.
ghost use Rattle.atom_mach.specs.Texts.{BannersAreShort};
ghost use Rattle.atom_mach.specs.Run.{RunsJoin, NothingAfterTheEnd, RuledRunsAreUnique};
ghost use Rattle.atom_mach.specs.Cuts.{CutsBeginWithTheOpening, CutsGrowByLines, LeavingCutsAreSessions, LastCutsAreSessions, SessionsAreCuts, CutsCountLines};
ghost use Rattle.atom_mach.specs.Frame.{InstructionsLeaveOthers, InterruptsLeaveOthers, StepsLeaveOthers};
ghost use Rattle.atom_mach.specs.Late.{LateSessionsKeepGatheredHarts, GatheredHartsStand};
ghost use Rattle.atom_mach.specs.Limits.{StepsKeep, RunsKeepTheLimits};

/// A banner has at most 240 bytes, with up to 32 harts and 256 breakpoint places.
pub fn banners_are_short()
    ensures { BannersAreShort }
{}

/// A run of two lists of steps is the run of the first, then that of the second.
pub fn runs_join()
    ensures { RunsJoin }
{}

/// Once a run is over, no step is allowed.
pub fn nothing_after_the_end()
    ensures { NothingAfterTheEnd }
{}

/// By one rule, as that of a machine with one hart, at most one run from a state comes to its end: its ending and its
/// transcript are determined.
pub fn ruled_runs_are_unique()
    ensures { RuledRunsAreUnique }
{}

/// A cut of a session begins as its opening and grows by its next line, until it is the session: where a line left it, or
/// where no line is left.
pub fn cuts_grow_to_sessions()
    ensures opening { CutsBeginWithTheOpening }
    ensures lines { CutsGrowByLines }
    ensures leaving { LeavingCutsAreSessions }
    ensures last { LastCutsAreSessions }
    ensures whole { SessionsAreCuts }
    ensures count { CutsCountLines }
{}

/// An instruction or an interrupt of one hart leaves every other: its context but for the pending interrupt and the
/// reservation, and its fault, its next pc and its traps.
pub fn steps_leave_others()
    ensures instructions { InstructionsLeaveOthers }
    ensures interrupts { InterruptsLeaveOthers }
    ensures steps { StepsLeaveOthers }
{}

/// While a session with late harts is open, no step of another hart that is no line changes a hart that the session holds,
/// but for its pending interrupt and its reservation.
pub fn late_sessions_keep_gathered_harts()
    ensures { LateSessionsKeepGatheredHarts }
{}

/// A hart that such a session holds takes no interrupt, opens no session with no late harts, and executes nothing but the
/// instruction that it owes.
pub fn gathered_harts_stand()
    ensures { GatheredHartsStand }
{}

/// Every allowed step keeps the number of harts, the segments, the symbols, the limit of steps and the number of the
/// script's lines.
pub fn steps_keep()
    ensures { StepsKeep }
{}

/// Every run from a state within the limits stays within them.
pub fn runs_keep_the_limits()
    ensures { RunsKeepTheLimits }
{}
