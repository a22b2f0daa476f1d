//! Journals as text: reads and writes the files that list a run's entries.
//!
//! - A *journal* is the number of harts, the limit of steps and the entries of a run, in order.
//! - Its text has a *first line* with the two numbers and a line for each entry. A journal has one spelling, and each
//!   text that isn't one has a first faulty line.
//!
//! docs/formats.md has the grammar. It stands on mach_base, and the program's commands that keep or check journals stand
//! on it.
#![tactic(auto)]

mod cuts;
mod fault;
mod journal;
mod laws;
mod loose;
mod spelled;
#[cfg(test)]
mod tests;

pub use fault::JournalFault;
pub use journal::{Journal, read_journal, write_journal};
pub use laws::texts_mean_one_thing;
