//! The core: the planted machine as one value that can be changed by entries alone, with its journal and its transcript.
//!
//! - An *entry* is one change of the machine, as a journal lists it. It is *legal* where `makes` of `plant_mach` says so;
//!   that also says what the entry prints and changes.
//! - The *journal* is the list of the entries that were made, the *transcript* all that they printed.
//! - An *origin* is what a machine starts from: an image, symbols, a script, a number of harts and a limit of steps. The
//!   journal of a core is a legal list from some origin, and leads to the core's machine and transcript.
//! - A core is *lost* once a line, or the prompt at the script's end, ran out of memory. Nothing is claimed then but its
//!   journal.
//!
//! The files go from the machine from the inside (`inner` and its folder: what is seen of it, which entries are legal, how
//! each is made) to the core from the outside (`outer`). It stands on planted memory (`bus_plant`), the definitions and laws
//! of the planted machine (`plant_mach`), what harts meet at their pc and the debugger's texts (`atom_mach`), and one line
//! of the debugger (`kdb_cmd`).
#![tactic(auto)]

mod inner;
mod outer;
#[cfg(test)]
mod tests;

pub use outer::{ApplyFault, Core, Room};
