//! Why a text is no plan.

ghost use Rattle.std.specs.Prelude.{◌≡◌};
ghost use Rattle.plan_text.specs.declared.fault.PlanFault.TheVariants as plan_faults;

use mach_base::{OutOfMemory, What};
use thiserror::Error;

/// Why a text is no plan: its first faulty line, counted from 1; else its number of ticks, if that is over the limit, or
/// 2^64 - 1 where it is even greater.
#[derive(Clone, Copy, Debug, PartialEq, Eq, Error)]
pub enum PlanFault {
    #[error("line {line}: no ticks")]
    Bad { line: u64 },
    #[error("{what:?} {size}: too large")]
    TooLarge { what: What, size: u64 },
    #[error("out of memory")]
    OutOfMemory,
}

impl From<OutOfMemory> for PlanFault {
    ghost from_gives = { λ _ e. e ≡ plan_faults.OutOfMemory };

    fn from(_error: OutOfMemory) -> PlanFault {
        PlanFault::OutOfMemory
    }
}
