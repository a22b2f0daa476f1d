//! The registers of a hart as the debugger shows and sets them.
//!
//! - An *item* is one register with its value, as `  a0: 0000000000001000`: the name right in four places, and sixteen
//!   hexadecimal digits.
//! - The *registers' text* has the items of x0 to x31, four on a line, and then the pc's alone.
//! - Register 0 is *read only*: it is always 0, and the debugger refuses to set it.
//!
//! It stands on the contexts (`hart_ctx`); the debugger's commands stand on it.
#![tactic(auto)]

mod set;
mod show;
#[cfg(test)]
mod tests;

pub use set::{RegFault, set_reg};
pub use show::show_regs;
