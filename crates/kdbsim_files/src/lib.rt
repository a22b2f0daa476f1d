//! The files of the commands: what the program reads from the shelf, what is wrong with a file, and the program's statuses.
//!
//! - A *kind* of file is what it is read as: an image, a map, a script, a plan for so many harts, a journal, a source,
//!   an executable.
//! - A *cause* is what must have been so for an answer to come: the shelf's count of faults rose, or the file is refused by
//!   its size, by its first faulty line or by its counts, in this order (specs/Files.antt).
//! - A *status* is the answer of a call: how the run ended, or why there was none.
//!
//! It stands on the formats and on the edge; the commands stand on it.
#![tactic(auto)]

mod faults;
mod input;
mod laws;
mod report;
mod status;
#[cfg(test)]
mod tests;

pub use input::{
    elf_input, image_input, journal_input, map_input, plan_input, script_input, source_input,
};
pub use laws::{files_mean_one_thing, refusals_are_one};
pub use report::{status_code, status_line};
pub use status::{File, Status};
