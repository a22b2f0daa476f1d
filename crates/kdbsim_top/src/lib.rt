//! The top call of kdbsim: from the program's words to what it writes, prints and answers.
//!
//! - The *words* are the program's words after its name; a *command* is what they ask for.
//! - An *outcome* is what a command's run comes to: how it ended, its transcript and the journal that is to be written.
//! - A *transcript* is all that a run prints: its banners, prompts with their lines, output, and the ending line.
//! - A *status* is the answer of a call: how the run ended, or why there was none.
//!
//! It stands on the runs of the machine, the words, the files and the edge; the program stands on it. The headline is the
//! clause `cause` of `kdbsim`, by the definition `Explains`.
#![tactic(auto)]

mod commands;
mod inputs;
mod laws;
mod publish;
#[cfg(test)]
mod tests;
#[cfg(test)]
mod tests_of_threads;
mod top;
mod uni;

pub use kdbsim_files::{File, Status, status_code, status_line};
pub use laws::{journals_end_in_one_way, refusals_exclude_other_answers, right_files_end_the_run};
pub use top::{alone, kdbsim};
