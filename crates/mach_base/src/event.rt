/// A hart by its number, from 0.
#[derive(Clone, Copy, Debug, PartialEq, Eq)]
pub struct Hart(pub u8);

/// Why an instruction can't be executed.
#[derive(Clone, Copy, Debug, PartialEq, Eq)]
pub enum Cause {
    /// No segment holds a byte of the access.
    Unmapped,
    /// The segment's kind doesn't allow the access.
    NoRight,
    /// The address is no multiple of the access's width, or a jump's target is no multiple of 4.
    Misaligned,
    /// The word is no instruction.
    Illegal,
    /// The firmware has no such service.
    BadService,
}

/// A fault: its cause, and the address, the word (`Illegal`) or the service's number (`BadService`) at fault.
#[derive(Clone, Copy, Debug, PartialEq, Eq)]
pub struct Fault {
    pub cause: Cause,
    pub addr: u64,
}

/// Why a session opens.
#[derive(Clone, Copy, Debug, PartialEq, Eq)]
pub enum Reason {
    /// The first session of a run, on hart 0.
    Start,
    /// The breakpoint of this place, from 0.
    Breakpoint(u8),
    /// An `ebreak` of the image.
    Compiled,
    /// A single step has ended.
    Step,
    /// The instruction at the pc can't be executed.
    Fault(Fault),
}

/// How a run ends.
#[derive(Clone, Copy, Debug, PartialEq, Eq)]
pub enum Ending {
    /// A prompt found no line.
    ScriptEnd,
    /// Every hart is halted.
    AllHalted,
    /// The limit of steps is reached.
    StepLimit,
    /// The plan or the journal ended first.
    PlanEnd,
}

/// One event of the machine, as a journal lists it. The `u64` of `Open` is the mask of the late harts, with bit k
/// for hart k; that of `PlantStep` is an address.
#[derive(Clone, Copy, Debug, PartialEq, Eq)]
pub enum Entry {
    Step(Hart),
    Intr(Hart),
    Send(Hart),
    Take(Hart),
    Open(Hart, u64),
    Pull(u8),
    Line(Hart),
    Plant(u8),
    PlantStep(u64),
    PullStep,
    Close(Hart),
    Off(Ending),
}

/// What can be too large, one variant for each limit of docs/formats.md.
#[derive(Clone, Copy, Debug, PartialEq, Eq)]
pub enum What {
    ImageBytes,
    Segments,
    Memory,
    MapBytes,
    Symbols,
    ScriptBytes,
    Lines,
    PlanBytes,
    Ticks,
    JournalBytes,
    Entries,
    SourceBytes,
    ElfBytes,
    FileBytes,
}
