//! The debugger's breakpoints: places, each empty or with an address.
//!
//! - A *place* is numbered from 0 on, and there are `PLACES` of them. Where it is set it has an address, and is enabled or disabled.
//! - A breakpoint stops a hart whose pc is the address of an enabled place (docs/debugger.md, "Breakpoints").
//!
//! It stands on `mach_base`, and sees memory through its trait `Peek`; the debugger's commands stand on it.
#![tactic(auto)]

mod bp_fault;
mod places;
mod search;
#[cfg(test)]
mod tests;

pub use bp_fault::BpFault;
pub use places::{Breaks, Place};
