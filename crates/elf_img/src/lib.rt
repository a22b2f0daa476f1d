//! Executables: reads an ELF-64 file for RISC-V as an image of memory and a map of its symbols.
//!
//! - A *program header* describes a segment of the file; a *load* is one that becomes a segment of memory.
//! - A *section header* describes a section; the *symbol table* is the first section with symbols, its *names* are in
//!   another section.
//! - A *cause* is something that can be wrong with a file; of those that are so, the first in the order of
//!   docs/formats.md, "ELF executables", is told.
//! - Numbers in a file are offsets, addresses and sizes below 2^64. Sums of them are compared as natural numbers.
//!
//! It stands on img_text and on sym_map, which read what is written here.
#![tactic(auto)]

mod bytes;
mod fault;
mod header;
mod image;
mod map_text;
mod program;
mod reading;
mod section;
mod segments;
mod symbol;
mod symbols;
mod table;
#[cfg(test)]
mod tests;

pub use fault::{ElfFault, ElfWhy};
pub use reading::{Loaded, read_elf};

/// The bytes that a file has for all its segments, at most.
pub const MOST_FILE_BYTES: u64 = 16_777_216;
