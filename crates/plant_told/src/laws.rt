//! Laws of what is told, each as the contract of a call that does nothing.
ghost use Rattle.plant_told.specs.Laws.{CallsAreLegal, CallsTell, EntriesLeaveAwake};

/// Every call of a bus that the protocol allows while the run goes on is a legal entry of the planted machine.
pub fn calls_are_legal()
    ensures { CallsAreLegal }
{}

/// What is told after the entry of each call: what the protocol's contract of a bus says.
pub fn calls_tell()
    ensures { CallsTell }
{}

/// The master of a session that is in a single-step pass isn't halted, whatever entries are made.
pub fn entries_leave_awake()
    ensures { EntriesLeaveAwake }
{}
