//! The table of the debugger's commands and the table of its diagnostics, with the words that each prints.
//!
//! - A *command* is named by the first *word* of a line; the others are its *arguments*. An *entry* of the table is a
//!   command or `defcmd`; its *row* has its spelling, its *usage* (how `help` writes it), and how many arguments it takes.
//! - A *diagnostic* says why a line is refused; its number and its words stand here, and nowhere else.
//! - A *refusal* is a diagnostic, or that there was no memory.
//!
//! It uses `mach_base`; the lines of the debugger, in `kdb_cmd`, stand on it.
#![tactic(auto)]

mod commands;
mod diagnostics;
mod help;
mod refusals;
mod sizes;
mod table;
#[cfg(test)]
mod tests;
mod words;

pub use commands::{BreakpointChange, Command, Entry, ShowCommand};
pub use diagnostics::{Diagnostic, diagnostic_text};
pub use help::help_text;
pub use refusals::Refusal;
pub use sizes::{count_within, spelled_count, spelled_width};
pub use table::{Row, entry_of, is_command, is_spelled, row_of, takes};
pub use words::{argument_count, word_at};
