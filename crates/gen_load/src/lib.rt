//! The input of the command `load`: an image, a script and a plan, as a number says them.
//!
//! - The *image* is a program in which four harts count under a lock, the *script* stops it at a breakpoint in its loop.
//! - The *plan* lists for each tick the number of its hart, by a linear congruential *sequence* that begins with the number
//!   of the command.
//!
//! `specs/Input.antt` has all three. It stands on mach_base, and the command that runs the input stands on it.
#![tactic(auto)]

mod image;
mod input;
mod numbers;
mod plan;
mod script;
#[cfg(test)]
mod tests;

pub use input::{LoadInput, load_input};
pub use numbers::{GOES, HARTS, TICKS};
