//! The machine that the harts share, by what its calls do.
pub mod bus;
pub mod calls;
