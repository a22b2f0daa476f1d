//! A table of ticks, with the phases of both harts after them.
use crate::STEP;
use deck_core::{Kept, Looks, Phase, Then};

/// A hart, so many of its ticks, and the phases of hart 0 and of hart 1 after them.
pub type Row = (u8, u32, Phase, Phase);

/// No hart is late.
pub const NOBODY: Kept = Kept { late: 0 };

/// Hart 1 is looked at for the first time, and for the second.
pub const FIRST_LOOK: Phase = Phase::Gather {
    looks: Looks {
        rounds: 0,
        next: 1,
        gathered: 0,
    },
};

pub const SECOND_LOOK: Phase = Phase::Gather {
    looks: Looks {
        rounds: 1,
        next: 1,
        gathered: 0,
    },
};

const OLD: Phase = Phase::Parked { gate: 3 };

const MARKED: Phase = Phase::Parked { gate: 5 };

const PULLING: Phase = Phase::Pull {
    kept: NOBODY,
    left: 8,
};

const LINES: Phase = Phase::Lines { kept: NOBODY };

const STEPPING: Phase = Phase::PlantStep {
    kept: NOBODY,
    at: STEP,
};

const PASSING: Phase = Phase::PassStep {
    kept: NOBODY,
    planted: true,
};

const BACK: Phase = Phase::PullStep {
    kept: NOBODY,
    then: Then::Enter,
};

const AGAIN: Phase = Phase::Enter {
    kept: NOBODY,
    reopens: true,
};

const PLANTING: Phase = Phase::Plant {
    kept: NOBODY,
    left: 8,
};

/// An old mark doesn't count, and nobody is late: the time line of docs/protocol.md, with the whole of both sessions.
pub const OLD_MARK: [Row; 28] = [
    (0, 8, Phase::Shut, Phase::Run),
    (0, 1, Phase::Send { to: 1 }, Phase::Run),
    (0, 4, SECOND_LOOK, Phase::Run),
    (1, 5, SECOND_LOOK, OLD),
    (0, 4, LINES, OLD),
    (0, 3, LINES, OLD),
    (0, 3, STEPPING, OLD),
    (0, 3, PASSING, OLD),
    (0, 3, BACK, OLD),
    (0, 3, AGAIN, OLD),
    (0, 6, PLANTING, OLD),
    (0, 6, Phase::OpenGate, OLD),
    (1, 1, Phase::OpenGate, OLD),
    (0, 1, Phase::Drop, OLD),
    (0, 2, Phase::Run, OLD),
    (0, 8, Phase::Shut, OLD),
    (0, 1, Phase::Send { to: 1 }, OLD),
    (0, 3, FIRST_LOOK, OLD),
    (0, 1, SECOND_LOOK, OLD),
    (1, 2, SECOND_LOOK, Phase::Run),
    (1, 5, SECOND_LOOK, MARKED),
    (0, 4, PULLING, MARKED),
    (0, 3, LINES, MARKED),
    (0, 3, PLANTING, MARKED),
    (0, 9, Phase::Run, MARKED),
    (1, 2, Phase::Run, Phase::Run),
    (0, 3, Phase::Finished, Phase::Run),
    (1, 3, Phase::Finished, Phase::Finished),
];

/// So many of its rows come before the mark's renewal: hart 0 has looked at the old mark twice.
pub const TO_THE_OLD_MARK: usize = 19;
