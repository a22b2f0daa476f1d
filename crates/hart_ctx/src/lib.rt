//! The context of a hart: what the hart itself holds, beside memory.
//!
//! - A *context* has the 32 integer registers x0 to x31, the pc, and what the firmware keeps for interrupts: the saved
//!   pc, the vector, and whether interrupts are masked, one is pending, and the hart is halted.
//! - A *reservation* is the granule of 8 bytes, by its number, on which the hart's last load-reserved was made.
//! - The *ABI name* of a register is the one of the RISC-V calling convention, as `a0` for x10.
//!
//! It uses `mach_base`; the machine's instructions and the debugger use it.
#![tactic(auto)]

mod context;
mod register_name;
mod reservation;

pub use context::Context;
pub use register_name::{
    BadReg, RegName, names_are_read, numbers_name_registers, reg_name, reg_of,
};
pub use reservation::{end_reservations, granule_of, is_among};
