//! A line of the debugger, cut into words and a filter.
//!
//! - A *blank* is a space or a tab. A *word* is what is between blanks; a *quoted part*, from a `"` to the next,
//!   may hold blanks, and its quotes don't belong to the word.
//! - The *pipe* is the first `|` outside quotes. After it comes the *filter*: `grep` and a *pattern*.
//! - A *comment* is a line whose first byte after blanks is `#`. It has no words.
//!
//! It stands on mach_base. The commands stand on it.
#![tactic(auto)]

mod lex_fault;
mod line;
mod mark;
#[cfg(test)]
mod tests;
mod word;

pub use lex_fault::LexFault;
pub use line::{Lexed, lex};
