//! Plain data: the shared words, phases, calls and answers, and what a bus tells.
pub mod act;
pub mod note_words;
pub mod notes;
pub mod phase;
pub mod words;
