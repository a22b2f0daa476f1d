//! Where the words of the board lie.

/// The turn word.
pub const TURN: usize = 0;

/// The master word.
pub const MASTER: usize = 1;

/// The gate's number.
pub const GATE: usize = 2;

/// The first of the notes, of which there are `NOTE_WORDS`.
pub const NOTES: usize = 3;

/// The own word of hart 0. That of hart k lies k words after it.
pub const OWN: usize = 19;

/// How many words there are. Each hart that a mask has room for has a word of its own.
pub const WORDS: usize = 51;
