//! The memory of the simulated machine, with rights.
//!
//! - A *map* is memory: segments in order, each with its bytes. Contracts see it as a record of that memory (`Memory` of
//!   mach_base: the segments, and each mapped address with its byte) and of the marks of its pages (`specs/Pages.antt`).
//! - A *page* is 4,096 bytes, cut from a segment's base on; the last one of a segment may be shorter. Its *mark* says that
//!   it was written to since the marks were last taken away.
//! - An *access* is a fetch, a load or a store of 1, 2, 4 or 8 bytes from an address on; numbers are little-endian.
//! - A segment's kind gives the *right*: text is fetched, data loaded and stored, rodata loaded.
//! - An access *faults* as misaligned, unmapped or without right, in this order, and then changes nothing.
//!
//! docs/machine.md has the rules. `specs/Access.antt` says what an access reads and leaves; the crates that execute
//! instructions and the debugger use it.
#![tactic(auto)]

mod laws;
mod memory;
mod pages;
mod piece;
mod rights;

pub use laws::{
    store_changes_its_bytes, store_keeps_faults, store_keeps_text, stored_is_loaded,
    stores_are_seen_there_alone, stores_commute,
};
pub use mach_base::{Kind, Segment};
pub use memory::Map;
pub use pages::{PAGE_BYTES, Page};
