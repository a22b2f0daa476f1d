//! One line of the debugger: what it prints, what it changes, and whether it leaves the session.
//!
//! - A *line* is cut into *words*, of which the first names the *command* and the others are its *arguments*; an
//!   argument is mostly an expression. After a pipe comes a filter, through which everything goes that is printed.
//! - A line is *refused* by a *diagnostic*, the first that holds, which is printed and changes nothing.
//! - The *state* of a line is what it sees and may change: the harts' contexts, memory, breakpoints, variables, macros,
//!   symbols, and the number of the *current* processor, which the commands are about.
//! - The *gathered* processors are those in the session, of which it was *entered* on one; any of them can become the
//!   current one.
//! - An *answer* is what a line prints, the state that it leaves, and the *outcome*: whether the session goes on.
//!
//! The tables of commands and diagnostics are in `kdb_table`, what commands see and print is in `kdb_view`. It joins the
//! debugger's crates over any memory that is a `Peek`; the machine's sessions stand on it.
#![tactic(auto)]

mod command;
mod desk;
mod laws;
mod line;
mod outcomes;
#[cfg(test)]
mod tests;

pub use kdb_view::Kdb;
pub use laws::{
    lines_keep_the_limits, refused_lines_change_nothing, steps_begin_where_a_hart_runs,
};
pub use line::lines::run_line;
pub use outcomes::{Outcome, Said};
