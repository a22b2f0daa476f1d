//! What the buses tell at their start.
use deck_core::Notes;

/// Nothing has happened, and no hart has a trap.
pub(crate) const QUIET: Notes = Notes {
    planted: 0,
    enabled: 0,
    step: None,
    session: None,
    lines: 0,
    sends: 0,
    stepped: false,
    over: false,
    traps: 0,
    faults: 0,
    next: None,
    plantable: false,
};
