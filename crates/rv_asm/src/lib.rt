//! The spelling of instructions: each word of 32 bits as one line of assembly language, and the word of a line.
//!
//! - The *parts* of an instruction's operands are its registers and its immediate, and the marks between them.
//! - The *spelling* of a word is the text of the instruction that it is: the mnemonic, with the ordering bits of an
//!   atomic, a blank, and the operands' parts in the order of the form. A word that is no instruction is spelled as
//!   data: `.word` and its hexadecimal digits.
//! - A line is *read loosely* for the word that it may spell: numbers may have leading zeros, marks may be missing.
//!   Only the comparison of the line with the word's spelling decides.
//!
//! It stands on the instruction table, the decoder and encoder, and the names of the registers. docs/machine.md has
//! the forms in plain words.
#![tactic(auto)]

mod compare;
mod line;
mod loose;
mod parts;
mod spelling;
#[cfg(test)]
mod tests;

pub use line::{assemble_line, spellings_differ};
pub use spelling::push_insn;
