//! The frames of a hart: where it is, and through which calls it came there.
//!
//! - A *frame pointer* is an address in x8, the register `s0`. In the 16 bytes below it are the caller's frame pointer
//!   and, above that, the *return address*.
//! - A *frame* is printed as its number, from 0, and its address: first the hart's pc, then one return address after the
//!   other, as the frame pointers lead from caller to caller. `specs/Frames.antt` says where the chain ends.
//!
//! It stands on mach_base, sym_map and hart_ctx, and sees memory through the trait `Peek`; the debugger's commands stand
//! on it.
#![tactic(auto)]

mod frame;
mod laws;
mod show;
#[cfg(test)]
mod tests;

pub use laws::{frames_are_the_longest_chain, frames_are_unique};
pub use show::show_frames;
