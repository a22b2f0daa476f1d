//! The limits of machines, files and runs, each once by its name. docs/formats.md lists them.

/// The harts of a machine, at most.
pub const MOST_HARTS: u8 = 16;

/// The harts that masks and packed entries have room for.
pub const MASK_HARTS: u8 = 32;

/// The breakpoint places of a machine.
pub const PLACES: u8 = 16;

/// The segments of an image, at most.
pub const MOST_SEGMENTS: usize = 64;

/// The bytes of memory over all segments, at most.
pub const MOST_MEMORY: u64 = 16_777_216;

/// The symbols of a map, at most.
pub const MOST_SYMBOLS: usize = 500_000;

/// The bytes of a symbol's name, at most.
pub const SYMBOL_BYTES: usize = 255;

/// The lines of a script, at most.
pub const MOST_LINES: usize = 4_096;

/// The bytes of a script's line, at most.
pub const LINE_BYTES: usize = 200;

/// The variables of the debugger, at most.
pub const MOST_VARIABLES: usize = 31;

/// The macros of the debugger, at most.
pub const MOST_MACROS: usize = 32;

/// The lines of a macro, at most.
pub const MACRO_LINES: usize = 32;

/// The limit of steps that a run can be given, at most.
pub const MOST_STEPS: u64 = 4_000_000;

/// The rounds in which a master looks for the others, at most.
pub const MOST_ROUNDS: u32 = 100_000;

/// The ticks of a plan, at most.
pub const MOST_TICKS: u64 = 4_000_000;

/// The entries of a journal, at most.
pub const MOST_ENTRIES: u64 = 8_000_000;

/// The bytes of an image file, at most.
pub const IMAGE_BYTES: usize = 67_108_864;

/// The bytes of a map file, at most.
pub const MAP_BYTES: usize = 33_554_432;

/// The bytes of a script file, at most.
pub const SCRIPT_BYTES: usize = 1_048_576;

/// The bytes of a plan file, at most.
pub const PLAN_BYTES: usize = 1_048_576;

/// The bytes of a journal file, at most.
pub const JOURNAL_BYTES: usize = 134_217_728;

/// The bytes of an assembler's source file, at most.
pub const SOURCE_BYTES: usize = 67_108_864;

/// The bytes of an ELF file, at most.
pub const ELF_BYTES: usize = 67_108_864;
