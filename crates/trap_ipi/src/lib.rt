//! What the firmware does for a hart: its services, and the taking of its interrupts.
//!
//! - A *service* is what an `ecall` asks for, by its number in a7 with one argument in a0 (docs/machine.md, "Services").
//! - An *interrupt* is pending for a hart until the hart takes it; there is at most one. To *take* it is to go on at the
//!   handler, whose address is the vector.
//!
//! It uses the contexts of `hart_ctx`; the execution of instructions uses it.
#![tactic(auto)]

mod firmware;
mod interrupt;
#[cfg(test)]
mod tests;

pub use firmware::{Served, service};
pub use interrupt::{take, takeable};
