//! Macros: names for lines of commands.
//!
//! - A *macro* has a name and lines, each kept as it is. Macros and their lines are limited.
//! - While a macro is *being defined*, it takes the lines that are read (docs/debugger.md, "Macros").
//!
//! It stands on `mach_base`, and on `kdb_env` for the rule of names; the debugger's commands stand on it.
#![tactic(auto)]

mod lines;
mod macro_fault;
mod macros;
mod search;
#[cfg(test)]
mod tests;

pub use macro_fault::MacroFault;
pub use macros::Macros;
