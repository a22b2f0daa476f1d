//! Why a text is no journal.

ghost use Rattle.std.specs.Prelude.{◌≡◌};
ghost use Rattle.jrn_text.specs.declared.fault.JournalFault.TheVariants as journal_faults;

use mach_base::{OutOfMemory, What};
use thiserror::Error;

/// Why a text is no journal: its first faulty line, counted from 1; else its count of entries, if that is over the limit.
#[derive(Clone, Copy, Debug, PartialEq, Eq, Error)]
pub enum JournalFault {
    #[error("line {line}: no entry")]
    Bad { line: u64 },
    #[error("{what:?} {size}: too large")]
    TooLarge { what: What, size: u64 },
    #[error("out of memory")]
    OutOfMemory,
}

impl From<OutOfMemory> for JournalFault {
    ghost from_gives = { λ _ e. e ≡ journal_faults.OutOfMemory };

    fn from(_error: OutOfMemory) -> JournalFault {
        JournalFault::OutOfMemory
    }
}
