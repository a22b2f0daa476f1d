//! One hart's calls on the shared words, and the pure deck on which they are ticks of a configuration.
pub mod deck;
pub mod flat;
pub mod flat_deck;
pub mod seat_steps;
pub mod seats;
