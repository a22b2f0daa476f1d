//! Why a text is no source.

ghost use Rattle.std.specs.Prelude.{◌≡◌};
ghost use Rattle.asm_text.specs.Reading.{source_fault};
ghost use Rattle.asm_text.specs.declared.fault.SourceFault.TheVariants as source_faults;

use img_text::ImageFault;
use mach_base::{OutOfMemory, What};
use thiserror::Error;

/// Why a text is no source: it has too many bytes; else its first faulty line, counted from 1; else the first count of
/// its image that is over its limit, with the count.
#[derive(Clone, Copy, Debug, PartialEq, Eq, Error)]
pub enum SourceFault {
    #[error("line {line}: no source")]
    Bad { line: u64 },
    #[error("{what:?} {size}: too large")]
    TooLarge { what: What, size: u64 },
    #[error("out of memory")]
    OutOfMemory,
}

impl From<OutOfMemory> for SourceFault {
    ghost from_gives = { λ _ e. e ≡ source_faults.OutOfMemory };

    fn from(_error: OutOfMemory) -> SourceFault {
        SourceFault::OutOfMemory
    }
}

/// The fault of the image that stands for a source, as the source's.
pub fn source_fault(fault: ImageFault) -> SourceFault
    ensures { result ≡ source_fault fault }
{
    match fault {
        ImageFault::Bad { line, why: _ } => SourceFault::Bad { line },
        ImageFault::TooLarge { what, size } => SourceFault::TooLarge { what, size },
        ImageFault::OutOfMemory => SourceFault::OutOfMemory,
    }
}
