use mach_base::{Ending, Hart};

/// A step of the atomic machine (docs/debugger.md, "Steps").
#[derive(Clone, Copy, Debug, PartialEq, Eq)]
pub enum AStep {
    /// The hart executes one instruction.
    Instr(Hart),
    /// The hart takes its interrupt.
    Intr(Hart),
    /// A whole session of the hart, with no late harts.
    Session(Hart),
    /// The hart opens a session with these late harts, a mask.
    Enter(Hart, u64),
    /// One line of a session with late harts.
    Line,
    /// A session with late harts closes.
    End,
    /// The run ends.
    Off(Ending),
}

/// Why a step was not made.
#[derive(Clone, Copy, Debug, PartialEq, Eq)]
pub enum StepFault {
    /// The step isn't allowed now.
    NotNow,
    OutOfMemory,
}

/// What the machine is about. `late` is the mask of the harts that a session doesn't hold.
#[derive(Clone, Copy, Debug, PartialEq, Eq)]
pub enum Mode {
    /// No session is open.
    Free,
    /// A session with late harts is open.
    Hold {
        master: Hart,
        late: u64,
    },
    /// The master of a session owes one instruction, a single-step pass; with `again` its session opens again after it.
    Pass {
        master: Hart,
        late: u64,
        again: bool,
    },
    /// The master has made its step, and its session opens again.
    Back {
        master: Hart,
        late: u64,
    },
    /// A session with late harts is closing.
    Leave {
        master: Hart,
        late: u64,
    },
    /// The run has ended.
    Over(Ending),
}
