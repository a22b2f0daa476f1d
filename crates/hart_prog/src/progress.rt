//! How a tick went.
ghost use Rattle.std.specs.Prelude.{◌≡◌};
ghost use Rattle.hart_prog.specs.Progress.{answered, found_or_waits, word_progress};

use deck_core::{Answer, Phase, Turned};

/// Where a hart stands in a transaction on the bus.
#[derive(Clone, Copy, Debug, PartialEq, Eq)]
pub enum At {
    /// Before the load of the turn word.
    Peek,
    /// Before the compare and exchange.
    Take,
    /// Before the call: the hart holds the turn.
    Give,
}

/// What a hart's worker does after a tick.
#[derive(Clone, Copy, Debug, PartialEq, Eq)]
pub enum Progress {
    /// It makes the next tick.
    Again,
    /// The tick found nothing that the hart could go on with: the turn busy, a master, the gate still shut, no mark that
    /// counts, or nothing to do.
    Waits,
    /// The hart has seen an ending.
    Finished,
}

/// The progress of a tick that made a call, by the call's answer.
pub fn answered(answer: Answer) -> Progress
    ensures { result ≡ answered answer }
{
    match answer {
        Answer::HartStep(Turned::Off) => Progress::Finished,
        Answer::HartStep(Turned::Idle) => Progress::Waits,
        _ => Progress::Again,
    }
}

fn found_or_waits(found: bool) -> Progress
    ensures { result ≡ found_or_waits found }
{
    if found {
        Progress::Again
    } else {
        Progress::Waits
    }
}

/// The progress of a tick of a phase that makes no call, by whether it found what the hart can go on with.
pub fn word_progress(phase: Phase, found: bool) -> Progress
    ensures { result ≡ word_progress phase found }
{
    match phase {
        Phase::Want => found_or_waits(found),
        Phase::Parked { .. } => found_or_waits(found),
        Phase::Gather { .. } => found_or_waits(found),
        Phase::Finished => Progress::Finished,
        _ => Progress::Again,
    }
}
