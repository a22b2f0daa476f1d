//! What the planted machine tells the protocol of the processors, and that the calls which the protocol allows are legal
//! entries.
//!
//! - What is *told* (`told_of` of specs/Told.antt) is plain data: the session, masks of planted and enabled places, of the
//!   harts that have a trap and of those whose instruction faults, the next address of the master, and what a bus counts
//!   besides (`Counted`): calls sent, whether a step word was planted since the last line.
//!
//! It stands on the planted machine (`plant_mach`) and on the protocol's words (`deck_core`); the bus over the planted
//! machine stands on it. There is no code here: its calls do nothing, and their contracts are the laws.
#![tactic(auto)]

mod laws;

pub use laws::{calls_are_legal, calls_tell, entries_leave_awake};
