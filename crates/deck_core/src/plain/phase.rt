//! Where a hart stands: its phase, with what the phase keeps, and its place in a transaction.

/// What a master keeps from the opening of its session to the closing.
#[derive(Clone, Copy, Debug, PartialEq, Eq)]
pub struct Kept {
    /// The mask of the late harts: those that weren't gathered when the session was opened.
    pub late: u64,
}

/// What follows the removal of the step word.
#[derive(Clone, Copy, Debug, PartialEq, Eq)]
pub enum Then {
    /// The session opens again.
    Enter,
    /// The session ends; these places are to be planted first.
    Plant { left: u64 },
}

/// What a master keeps while it gathers the other harts.
#[derive(Clone, Copy, Debug, PartialEq, Eq)]
pub struct Looks {
    /// The rounds of looks that are over.
    pub rounds: u32,
    /// The hart at which the next look is.
    pub next: u8,
    /// The mask of the harts whose mark was seen.
    pub gathered: u64,
}

/// What a hart does next. Phases from `Own` to `Free` are those of a master; in those from `Pull` to `Close`, and in
/// `Enter` where it reopens, a session is open.
#[derive(Clone, Copy, Debug, PartialEq, Eq)]
pub enum Phase {
    /// Runs its program.
    Run,
    /// Was called by a master, and will read the gate.
    Called,
    /// Saw the gate shut at this number, and will mark itself with it.
    Mark { gate: u64 },
    /// Is marked with this number, and waits until the gate has another.
    Parked { gate: u64 },
    /// Saw the gate past this number, and will take its mark away.
    Unmark { gate: u64 },
    /// Has a trap, and will say that it wants the prompt.
    Wish,
    /// Wants the prompt, and tries to become the master.
    Want,
    /// Is the master, and will check that its trap is still there.
    Own,
    /// Will shut the gate.
    Shut,
    /// Will call this hart.
    Send { to: u8 },
    /// Looks whether the other harts are marked.
    Gather { looks: Looks },
    /// Will open its session, for the first time or after a single-step pass.
    Enter { kept: Kept, reopens: bool },
    /// Takes the planted words out; these places are left.
    Pull { kept: Kept, left: u64 },
    /// Runs the script's lines.
    Lines { kept: Kept },
    /// Will plant the step word at this address.
    PlantStep { kept: Kept, at: u64 },
    /// Will execute one instruction; `planted` says whether the step word stands.
    PassStep { kept: Kept, planted: bool },
    /// Will take the step word out.
    PullStep { kept: Kept, then: Then },
    /// Plants the enabled places again; these are left.
    Plant { kept: Kept, left: u64 },
    /// Will close its session.
    Close { kept: Kept },
    /// Will open the gate.
    OpenGate,
    /// Will take its own word back.
    Drop,
    /// Will free the master word.
    Free,
    /// Has seen an ending, and does nothing more.
    Finished,
}

/// A hart's place in a transaction on the bus: it loads the turn word, takes the turn by a compare and exchange, and
/// gives it back with the one call made.
#[derive(Clone, Copy, Debug, PartialEq, Eq)]
pub enum Place {
    /// Before the load.
    Peek,
    /// Before the compare and exchange, with the word that was loaded.
    Take { seen: u64 },
    /// Before the call: the hart holds the turn.
    Give,
}
