//! A line, from its bytes to the command that it names, and the lines of macros.
pub mod first_word;
pub mod lines;
pub mod macro_definition;
pub mod macro_lines;
pub mod meanings;
pub mod output;
