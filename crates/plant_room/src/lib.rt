//! The room that the calls of a bus over the planted machine may still need, for the journal and for the transcript.
//!
//! - *Room left for the journal* (`bytes_left` of specs/Room.antt) is a number of bytes that falls with every entry but an
//!   ending, by at least the entry's own bytes: steps have one each, all else ten.
//! - *Room left for text* (`text_left`) falls with every such entry but a line, by at least what the entry prints.
//!
//! So a bus that reserves so much at the start, and room for text again after each line, lacks memory at no other call.
//! A list of legal entries alone has no such bound: the numbers rest on what the protocol allows, that so many calls are
//! sent for each line, and one step word planted. It stands on what a bus tells (`plant_told`). There is no code here: the
//! calls do nothing, and their contracts are the laws.
#![tactic(auto)]

mod laws;

pub use laws::{entries_leave_room, starts_have_room};
