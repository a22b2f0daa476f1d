//! Where a hart's tick leads, as plain functions.
pub mod next_phase;
