//! What a bus tells of itself as plain data.
use mach_base::Hart;

/// How far a session is.
#[derive(Clone, Copy, Debug, PartialEq, Eq)]
pub enum Stage {
    /// Its lines are run.
    Lines,
    /// One instruction is to be executed; `again` says whether the session opens again after it.
    Pass { again: bool },
    /// The instruction was executed, and the session opens again.
    Back,
    /// It ends.
    Leaving,
}

/// An open session: its master, the mask of its late harts, and its stage.
#[derive(Clone, Copy, Debug, PartialEq, Eq)]
pub struct Sitting {
    pub master: Hart,
    pub late: u64,
    pub stage: Stage,
}

/// What the protocol needs to know of a bus besides its number of harts and its mask.
#[derive(Clone, Copy, Debug, PartialEq, Eq)]
pub struct Notes {
    /// The mask of the planted places.
    pub planted: u64,
    /// The mask of the enabled places.
    pub enabled: u64,
    /// The address of the step word, where one stands.
    pub step: Option<u64>,
    /// The open session, if there is one.
    pub session: Option<Sitting>,
    /// How many script lines were read.
    pub lines: u64,
    /// How many calls to other harts were sent.
    pub sends: u64,
    /// Whether a step word was planted since the last line.
    pub stepped: bool,
    /// Whether an ending stands, or a line ran out of memory.
    pub over: bool,
    /// The mask of the harts that have a trap.
    pub traps: u64,
    /// The mask of the harts whose instruction faults.
    pub faults: u64,
    /// The next address of the session's master; None without a session, or where it is nowhere.
    pub next: Option<u64>,
    /// Whether that address is a text word other than the master's pc.
    pub plantable: bool,
}
