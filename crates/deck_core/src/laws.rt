//! What is proved of whole configurations. None of these functions does anything.
pub mod facts;
pub mod keeps;
pub mod ranges;
pub mod runs;
