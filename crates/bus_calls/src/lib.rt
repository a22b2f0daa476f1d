//! The bus of the protocol over the planted machine: the core, with what a bus counts besides and the room that a run needs.
//!
//! - A *call* is what one hart asks of the bus while it holds the turn. It makes one entry of the core or none
//!   (`call_of` of specs/Calls.antt), and answers.
//! - *Over* is a bus once an ending stands or a line ran out of memory: no call makes an entry then.
//! - The *room* for the journal and for the transcript is reserved at the start, and room for text again after each line, so
//!   that no call but a line lacks memory.
//!
//! It stands on the core (`bus_core`), on what the planted machine tells (`plant_told`) and on the bounds of the room
//! (`plant_room`); whoever runs the protocol stands on it.
#![tactic(auto)]

mod bus;
#[cfg(test)]
mod tests;

pub use bus::{CoreBus, Stood};
