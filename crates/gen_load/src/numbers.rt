//! The numbers of the input.

/// The harts of the image's program.
pub const HARTS: u8 = 4;

/// The lines `go` of the script that meet the breakpoint, with the first, which starts the run.
pub const GOES: usize = 50;

/// The ticks of the plan.
pub const TICKS: usize = 2_000_000;
