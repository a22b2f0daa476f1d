ghost use Rattle.std.specs.Prelude.{◌≡◌};
ghost use Rattle.kdb_table.specs.declared.refusals.Refusal.TheVariants.{Diagnosed, OutOfMemory as Lacking};

use crate::diagnostics::Diagnostic;
use mach_base::OutOfMemory;

/// Why a command gives no answer of its own.
#[derive(Clone, Copy, Debug, PartialEq, Eq)]
pub enum Refusal {
    /// It is refused, and has changed nothing.
    Diagnosed(Diagnostic),
    /// There was no memory.
    OutOfMemory,
}

impl From<Diagnostic> for Refusal {
    ghost from_gives = { λ d e. e ≡ Diagnosed d };

    fn from(diagnostic: Diagnostic) -> Refusal {
        Refusal::Diagnosed(diagnostic)
    }
}

impl From<OutOfMemory> for Refusal {
    ghost from_gives = { λ _ e. e ≡ Lacking };

    fn from(_error: OutOfMemory) -> Refusal {
        Refusal::OutOfMemory
    }
}
