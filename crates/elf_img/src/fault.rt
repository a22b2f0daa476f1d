//! Why a file is no executable that the machine runs.

ghost use Rattle.std.specs.Prelude.{◌≡◌};
ghost use Rattle.elf_img.specs.declared.fault.ElfFault.TheVariants as elf_faults;

use mach_base::{OutOfMemory, What};
use std::alloc::AllocError;
use thiserror::Error;

/// What is wrong with an executable, in the order in which it is told. docs/formats.md, "ELF executables", has each
/// with its field.
#[derive(Clone, Copy, Debug, PartialEq, Eq)]
pub enum ElfWhy {
    /// The file ends before its header or a table of headers does.
    Short,
    /// It is no ELF file of 64 bits with the lowest byte first.
    Magic,
    /// It is no executable with fixed addresses.
    FileType,
    /// It isn't for RISC-V.
    Machine,
    /// It has compressed code.
    Compressed,
    /// Its headers have another size than those of ELF-64.
    HeaderSize,
    /// It wants a dynamic linker.
    Dynamic,
    /// A segment's bytes aren't in the file, are more than its memory, or its memory reaches beyond 2^63.
    Bounds,
    /// A segment is executable and writable.
    WriteExec,
    /// A segment begins below the end of the one before, both rounded to multiples of 8.
    Order,
    /// No segment is executable.
    NoText,
}

/// Why a file is no executable that the machine runs: the first thing that is wrong with it, or the first size that is
/// over its limit, with the size.
#[derive(Clone, Copy, Debug, PartialEq, Eq, Error)]
pub enum ElfFault {
    #[error("{0:?}")]
    Bad(ElfWhy),
    #[error("{what:?} {size}: too large")]
    TooLarge { what: What, size: u64 },
    #[error("out of memory")]
    OutOfMemory,
}

impl From<OutOfMemory> for ElfFault {
    ghost from_gives = { λ _ e. e ≡ elf_faults.OutOfMemory };

    fn from(_error: OutOfMemory) -> ElfFault {
        ElfFault::OutOfMemory
    }
}

impl From<AllocError> for ElfFault {
    ghost from_gives = { λ _ e. e ≡ elf_faults.OutOfMemory };

    fn from(_error: AllocError) -> ElfFault {
        ElfFault::OutOfMemory
    }
}
