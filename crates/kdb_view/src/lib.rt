//! What the debugger's commands see, the values of their arguments, and what each of them prints or wants.
//!
//! - The debugger *keeps* breakpoints, variables, macros and the number of the *current* processor between two lines.
//! - A *view* is what a command sees: that, the harts' contexts, memory and the symbols; the words of an argument can name
//!   what it holds.
//! - The *gathered* processors are those in the session, a bit for each by its number.
//! - What a command would change it hands back: the breakpoints after it, or the processor that becomes the current one.
//!
//! It joins the crates for words, memory, frames, breakpoints and variables; the lines of the debugger, in `kdb_cmd`, stand
//! on it.
#![tactic(auto)]

mod arguments;
mod breakpoints;
mod memory_display;
mod processors;
mod session;
#[cfg(test)]
mod tests;
mod variables;
mod view;

pub use arguments::{Values, argument, values_of};
pub use breakpoints::{BreakpointAnswer, bl, bp, change_answer};
pub use memory_display::{id, md, md_count, mdr, mds, memory_refusal};
pub use processors::{CpuAnswer, bt, btc, cpu, cpu_list};
pub use session::Kdb;
pub use variables::{Assignment, assignment_of, env, set, two_words};
pub use view::View;
