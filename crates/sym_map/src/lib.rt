//! Symbols: names for addresses, and the map files that list them.
//!
//! - A *symbol* is an address and a name, as a line of a map file has them; the symbols are in the order of the lines.
//! - An address is *near* a symbol where none has a greater address that isn't above it, and the distance, the *offset*,
//!   is below 0x100000. Of several symbols at that address it is the first.
//! - `specs/Grammar.antt` says which lines of a map file are right and which symbols they name, `specs/Reading.antt` what
//!   reading a map file gives, and the laws that both agree.
//!
//! It stands on mach_base; the commands that print memory, breakpoints and frames stand on it, and so do expressions.
#![tactic(auto)]

mod fault;
mod found;
mod index;
mod laws;
mod line;
mod reading;
mod symbol;
mod symbols;
#[cfg(test)]
mod tests;
mod texts;

pub use fault::MapFault;
pub use laws::{a_map_counts_its_symbols, a_map_gives_its_symbols, a_map_names_its_first_bad_line};
pub use symbols::{Near, Symbols};
pub use texts::{push_name, push_place};
