//! The program's words: from the words to the command that they ask for.
//!
//! - The *words* are the program's words after its name. The first is the *command's word*; the others are its
//!   *arguments*: *operands*, which it wants in their order, and *options*, which it may have anywhere among them.
//! - A *row* of the table says what a command wants: its word, its operands and its options, with the bounds of numbers.
//! - A *request* is what right words ask for; a *command* is one that names a file of its own for each that it writes.
//!
//! clap reads the words, and its refusal is the program's: no word is looked at before the parse or after it. The top
//! call stands on this crate.
#![tactic(auto)]

mod arguments;
mod found;
mod laws;
mod parser;
mod request;
#[cfg(test)]
mod tests;
mod words;

pub use laws::{requests_are_within_bounds, uni_takes_two_files, wrong_uses};
pub use request::{Command, Options, WordsFault};
pub use words::command_of;
