//! Images: what a machine's memory holds and where its harts start, and the text format `kimg` in which they are
//! written down.
//!
//! - An *image* is a list of segments in order, each with a byte for every address, and for each hart number
//!   below `MOST_HARTS` a pc and an sp to start with, or none.
//! - A *line* of an image file is a directive and its numbers, or is skipped. A *draft* is what the lines so far give.
//! - `specs/Grammar.antt` says which lines are right and which image they mean, `specs/Reading.antt` what reading gives, and
//!   the laws that both agree.
//! - To *boot* is to give a machine the image's memory and its harts' first contexts (`specs/Boot.antt`).
//!
//! It stands on memory and on the harts' contexts; the atomic machine stands on it.
#![tactic(auto)]

mod blocks;
mod directive;
mod fault;
mod filling;
mod image;
mod laws;
mod line;
mod reading;
mod start;
mod values;
mod writing;

pub use fault::{ImageFault, Why};
pub use image::Image;
pub use laws::{
    an_image_counts_its_memory, an_image_is_what_its_lines_give, an_image_names_its_first_bad_line,
};
pub use reading::read_image;
pub use start::{Booted, boot};
pub use writing::write_image;

#[cfg(test)]
mod tests;
