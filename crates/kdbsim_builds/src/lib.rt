//! The commands that make files for a machine and run none: an image from a source, an image and a map from an executable.
//!
//! - A *product* is a file that a command is to write: its name and its bytes.
//! - Products are *stored* in order. Room for each is made before the first is written, so that afterwards only the shelf can
//!   fail, and what was written before stands.
//!
//! It stands on the files and on the edge; the top call stands on it.
#![tactic(auto)]

mod builds;
mod laws;
mod store;
#[cfg(test)]
mod tests;
mod texts;

pub use builds::{assemble, convert};
pub use laws::made_files_are_told;
