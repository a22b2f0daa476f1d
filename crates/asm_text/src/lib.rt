//! Sources: assembly text of a whole program, in the format `kasm`, and the image that it means.
//!
//! - A *line* of a source is a line of the image format `kimg`, a *label*, which is a name and a colon, or an
//!   *instruction*.
//! - The *place* of a line is the address at which its bytes stand. A label gives its name the place of its line.
//! - `specs/Kinds.antt` says what a line is and how it moves the place, `specs/Labels.antt` which labels there are,
//!   `specs/Instructions.antt` which word an instruction means, `specs/Reading.antt` which line of an image stands for each
//!   line, and so which image a source means. `specs/Grammar.antt` says the same as a relation, and the laws that both agree.
//!
//! It stands on images and on the spelling of instructions; docs/formats.md has the format in plain words.
#![tactic(auto)]

mod fault;
mod instruction;
mod kind;
mod labels;
mod laws;
mod lines;
mod place;
mod reading;
#[cfg(test)]
mod tests;

pub use fault::SourceFault;
pub use laws::{
    a_place_is_where_the_next_byte_stands, a_source_counts_its_memory,
    a_source_is_what_its_lines_give, a_source_names_its_first_bad_line,
};
pub use reading::read_source;
