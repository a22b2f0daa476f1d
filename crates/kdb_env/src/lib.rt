//! The debugger's variables: names with values, in the order in which they were first set.
//!
//! - A *name* is a letter and then letters, digits or `_`, 16 bytes at most. A *value* is any bytes, but three names
//!   take only some: RADIX, BYTESPERWORD and MDCOUNT.
//! - The *defaults* are the five variables that are there from the start.
//!
//! It stands on mach_base and on indexmap. The expressions and the commands stand on it.
#![tactic(auto)]

mod checks;
mod env_fault;
mod table;
#[cfg(test)]
mod tests;
mod variables;

pub use checks::is_name;
pub use env_fault::EnvFault;
pub use variables::{Env, Pair};
