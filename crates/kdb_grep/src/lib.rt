//! The filter after a command's pipe: it keeps the lines that match a pattern.
//!
//! - A *pattern* is a text with up to two *marks*: a first `^` wants the match at the line's start, and a last `$`
//!   wants it at the line's end.
//! - A line *matches* where the pattern's text occurs in it, at the ends that are marked.
//!
//! What is kept is defined twice, as a function (`specs/Filter.antt`) and as a relation (`specs/Lines.antt`), and the
//! laws say that both are the same. It stands on mach_base and on memchr, which searches. The commands stand on it.
#![tactic(auto)]

mod laws;
mod line_match;
mod lines;
mod pattern;
#[cfg(test)]
mod tests;

pub use laws::{filtered_are_the_lines_that_match, matches_where_the_text_stands};
pub use line_match::keep;
pub use lines::filter;
