//! The instruction table of RV64I, M and A: which word is which operation.
//!
//! A *row* has a mask, a value, a form and an operation. A word *is the instruction of* a row where the word's
//! bits under the mask are the value. The *table* is all 87 rows, and no word is the instruction of two of them.
//! The *form* says which fields the word has. The decoder, the arithmetic and the machine's steps use this crate;
//! docs/machine.md has the table in plain words.
#![tactic(auto)]

mod names;
mod op;
mod table;
#[cfg(test)]
mod tests;

pub use names::{names_differ, op_name, op_named};
pub use op::{Form, Op};
pub use table::{EBREAK, Row, Table, ebreak_is_one_word, find, rows, rows_are_disjoint};
