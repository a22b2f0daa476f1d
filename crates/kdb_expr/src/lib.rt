//! Expressions: the numbers that words of a command stand for.
//!
//! - An *expression* is a word of one *atom*, or of two with `+` or `-` between them.
//! - An *atom* is a register (`%ra`), a variable (`$MDCOUNT`), a symbol, or a number in the radix of the variable RADIX.
//!
//! It stands on `mach_base`, and sees symbols, registers and variables through its trait `Names`. The debugger's commands
//! stand on it.
#![tactic(auto)]

mod eval_fault;
mod expression;
#[cfg(test)]
mod tests;

pub use eval_fault::EvalFault;
pub use expression::eval;
