//! The decoder and the encoder of RV64I, M and A: words to instructions and back.
//!
//! An *instruction* is an operation with its fields: registers, immediate, ordering bits. Each instruction has one
//! word, and each word at most one instruction: to decode and to encode undo each other. A field that the
//! operation's form lacks is 0 or false. The machine's steps and the assembler use this crate; docs/machine.md
//! has the fields in plain words.
#![tactic(auto)]

mod decoder;
mod encoder;
mod insn;
mod pieces;
#[cfg(test)]
mod tests;

pub use decoder::decode;
pub use encoder::encode;
pub use insn::Insn;
