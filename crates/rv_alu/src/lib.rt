//! The arithmetic of RV64I, M and A: what an operation makes of its operands.
//!
//! An *operand* is a 64-bit word; a *doubleword* operation works on all of it, a *word* operation on its low 32 bits.
//! Nothing is refused, and no state is touched. The machine's steps use this crate; docs/machine.md has the
//! results in plain words.
#![tactic(auto)]

mod amos;
mod branches;
mod classes;
mod division;
mod registers;
#[cfg(test)]
mod tests;
mod word;

pub use amos::amo;
pub use branches::branch;
pub use classes::{is_alu, is_amo, is_branch};
pub use registers::alu;
