//! Memory for the tests of the debugger's crates.
//!
//! - Its bytes are a list, the first of them at address 0.
//! - Beside the bytes it tells of one text segment, of 128 bytes from 0x1000 on, whether they are mapped or not: so
//!   breakpoints have a place without 4,096 bytes before it.
//!
//! It stands on mach_base, and only tests stand on it.
#![tactic(auto)]

mod byte_list;
#[cfg(test)]
mod tests;

pub use byte_list::ByteList;
