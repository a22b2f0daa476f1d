//! Memory as the debugger shows and changes it.
//!
//! - A *word* is 1, 2, 4 or 8 bytes, its *width*, at any address. Its value is little-endian.
//! - A *line* of memory is an address, the values of the words from there on, and the bytes as characters. It has 16
//!   bytes; the last line of a text may be shorter.
//! - A range is shown only where all of it is *mapped*: else it is refused with its first unmapped address.
//!
//! It stands on `mach_base`, whose trait `Peek` is how it sees memory, on the symbols (`sym_map`) and on the spelling of
//! instructions (`rv_asm`); the debugger's commands stand on it.
#![tactic(auto)]

mod change;
mod instruction_lines;
mod lines;
mod mem_fault;
mod range;
mod symbol_lines;
#[cfg(test)]
mod tests;

pub use change::modify;
pub use instruction_lines::insns;
pub use lines::{raw, show};
pub use mem_fault::MemFault;
pub use symbol_lines::syms;
