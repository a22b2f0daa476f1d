//! The edge of kdbsim to files and to standard output.
//!
//! - A *shelf* holds byte strings by name, and a *sink* takes bytes in order. Both are traits, so that whatever
//!   reads or prints is proved over any of them.
//! - What a shelf or a sink *tells* are ghost members: its bytes, where it can say, and always its count of *faults*,
//!   how often the outside has failed.
//! - A count has *risen* where it grew, or where it stands at 2^64 - 1, the last value of a counter.
//! - The shelves and sinks in memory tell all. `DirShelf` and `OutSink`, over real files and real output, tell no
//!   bytes: what the system does is trusted.
//!
//! It stands on mach_base. The program and everything that reads or writes for it stand on it.
#![tactic(auto)]

mod calls;
mod dir_shelf;
mod files;
mod lookup;
mod mem_shelf;
mod mem_sink;
mod named;
mod out_sink;
mod shelf;
mod sink;
mod slot;
mod store;
mod sure;
#[cfg(test)]
mod tests;

pub use dir_shelf::DirShelf;
pub use mem_shelf::MemShelf;
pub use mem_sink::MemSink;
pub use named::Named;
pub use out_sink::OutSink;
pub use shelf::{ReadFail, Shelf};
pub use sink::{Failed, Sink};
pub use sure::{SureShelf, SureSink};
