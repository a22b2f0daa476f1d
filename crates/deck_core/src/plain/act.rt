//! The calls of a bus as data, with their answers.
use mach_base::{Hart, Reason};

/// What a hart outside a session did.
#[derive(Clone, Copy, Debug, PartialEq, Eq)]
pub enum Turned {
    /// An ending stands.
    Off,
    /// It took a pending call of a master.
    Called,
    /// It has nothing to do.
    Idle,
    /// It has a trap.
    Trapped,
    /// It took its interrupt.
    Took,
    /// It executed an instruction.
    Stepped,
}

/// Whether a session was opened.
#[derive(Clone, Copy, Debug, PartialEq, Eq)]
pub enum Entered {
    /// It is open, and these places are planted.
    Inside { planted: u64 },
    /// An ending stands, and nothing was opened.
    Off,
}

/// What a script line did.
#[derive(Clone, Copy, Debug, PartialEq, Eq)]
pub enum Lined {
    /// The session goes on.
    Stay,
    /// One instruction is to be executed in a single-step pass, with the step word at `at` if there is one; `again` says
    /// whether the session opens again after it.
    Pass { at: Option<u64>, again: bool },
    /// The session ends, and these places are enabled.
    Free { enabled: u64 },
    /// No line was left, or an ending stands.
    Ended,
    /// The line ran out of memory. Nothing more is claimed of what the bus did.
    Lost,
}

/// What the instruction of a single-step pass did.
#[derive(Clone, Copy, Debug, PartialEq, Eq)]
pub enum Passed {
    /// It was executed, and the session opens again.
    Back,
    /// It was executed, or an ending stands; the session ends, and these places are enabled.
    Free { enabled: u64 },
    /// It faults, and was not executed; the session opens again.
    Faulted,
}

/// A call of a bus, with its arguments.
#[derive(Clone, Copy, Debug, PartialEq, Eq)]
pub enum Act {
    HartStep(Hart),
    Check(Hart),
    Send(Hart),
    Pull(u8),
    PlantStep(u64),
    PullStep,
    Plant(u8),
    Close(Hart),
    Enter(Hart, u64),
    Line(Hart),
    PassStep(Hart),
}

/// The answer of the call of the same name.
#[derive(Clone, Copy, Debug, PartialEq, Eq)]
pub enum Answer {
    HartStep(Turned),
    Check(Option<Reason>),
    Send,
    Pull,
    PlantStep,
    PullStep,
    Plant,
    Close,
    Enter(Entered),
    Line(Lined),
    PassStep(Passed),
}
