use elf_img::ElfWhy;
use img_text::Why;
use mach_base::{Ending, What};

/// A file that the words name.
#[derive(Clone, Copy, Debug, PartialEq, Eq)]
pub enum File {
    Image,
    Map,
    Script,
    Plan,
    Journal,
    Source,
    Elf,
}

/// The answer of a call (docs/commands.md, "Exit codes").
#[derive(Clone, Copy, Debug, PartialEq, Eq)]
pub enum Status {
    /// The run has ended so, and its transcript is out.
    Done(Ending),
    /// The files that the command makes are written.
    Made,
    /// The words ask for nothing that there is.
    Usage,
    /// The shelf failed at this file.
    ReadFault(File),
    /// This line of the image, from 1, is the first that is faulty.
    BadImage { line: u64, why: Why },
    /// This line of the map, from 1, is the first that is faulty.
    BadMap { line: u64 },
    /// This line of the script, from 1, is the first that is faulty.
    BadScript { line: u64 },
    /// This line of the plan, from 1, is the first that is faulty.
    BadPlan { line: u64 },
    /// This line of the journal, from 1, is the first that is faulty.
    BadJournal { line: u64 },
    /// This line of the source, from 1, is the first that is faulty.
    BadSource { line: u64 },
    /// This is the first thing that is wrong with the executable.
    BadElf { why: ElfWhy },
    /// A size or a count is over its limit.
    TooLarge { what: What, size: u64 },
    /// This entry of the journal, from 0, is the first that isn't legal.
    BadStep { index: u64 },
    /// The shelf or the sink failed at a write; a first part of the transcript may be out.
    WriteFault,
    /// Memory could not be had; nothing was written.
    OutOfMemory,
}
