ghost use Rattle.std.specs.Prelude.{◌≡◌, []};

use mach_base::Text;
use std::alloc::Global;

/// What follows a line.
#[derive(Clone, Copy, Debug, PartialEq, Eq)]
pub enum Outcome {
    /// The session goes on.
    Stay,
    /// The session is left.
    Go,
    /// The session is left for one instruction.
    Step,
}

/// What a line gives: its output, each line of it with its LF, and what follows.
#[derive(Debug, Drop)]
pub struct Said {
    pub text: Text,
    pub outcome: Outcome,
}

/// This text is printed, and the session goes on.
pub fn stay(text: Text) -> Said
    ensures text { result.text ≡ text }
    ensures outcome { result.outcome ≡ Outcome.Stay }
{
    Said {
        text,
        outcome: Outcome::Stay,
    }
}

/// Nothing is printed.
pub fn silent(alloc: Global, outcome: Outcome) -> Said
    ensures text { result.text ≡ [] }
    ensures outcome { result.outcome ≡ outcome }
{
    Said {
        text: Text::from_vec(Vec::new(alloc)),
        outcome,
    }
}
