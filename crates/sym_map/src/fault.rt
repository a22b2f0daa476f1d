//! Why a text is no map.

ghost use Rattle.std.specs.Prelude.{◌≡◌};
ghost use Rattle.sym_map.specs.declared.fault.MapFault.TheVariants as map_faults;

use mach_base::{OutOfMemory, What};
use thiserror::Error;

/// Why a text is no map: its first faulty line, counted from 1; else its count of symbols, if that is over the limit.
#[derive(Clone, Copy, Debug, PartialEq, Eq, Error)]
pub enum MapFault {
    #[error("line {line}: no symbol")]
    Bad { line: u64 },
    #[error("{what:?} {size}: too large")]
    TooLarge { what: What, size: u64 },
    #[error("out of memory")]
    OutOfMemory,
}

impl From<OutOfMemory> for MapFault {
    ghost from_gives = { λ _ e. e ≡ map_faults.OutOfMemory };

    fn from(_error: OutOfMemory) -> MapFault {
        MapFault::OutOfMemory
    }
}
