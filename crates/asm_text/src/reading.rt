//! Reading of a source.

ghost use Rattle.mach_base.specs.Lines.{lines_of};
ghost use Rattle.asm_text.specs.Reading.{Gives, source_of, source_of_lines};

use crate::fault::{SourceFault, source_fault};
use crate::lines::image_text;
use img_text::{Image, read_image};
use mach_base::{SOURCE_BYTES, What, is_header_of, next_line};
use std::alloc::Global;

/// Reads a source, and gives the image that it means. `TooLarge` of SourceBytes comes for a text of more than 67,108,864
/// bytes. `Bad` names the first faulty line, counted from 1, one past the last line where no segment holds text. `TooLarge`
/// of Segments or Memory comes for a text whose lines are all right, with the first count that is over its limit.
/// docs/formats.md has the format `kasm`.
pub fn read_source(alloc: Global, text: &[u8]) -> Result<Image, SourceFault>
    ensures { Gives result (source_of text.now) }
{
    if text.len() > SOURCE_BYTES {
        let what = What::SourceBytes;
        let size = text.len() as u64;
        return Err(SourceFault::TooLarge { what, size });
    }
    read_lines(alloc, text)
}

/// Reads the lines of a source.
#[tactic(auto, unfolding(crate::specs::Reading::source_of_lines))]
fn read_lines(alloc: Global, text: &[u8]) -> Result<Image, SourceFault>
    ensures { Gives result (source_of_lines (lines_of text.now)) }
{
    let Some((first, rest)) = next_line(text) else {
        return Err(SourceFault::Bad { line: 1 });
    };
    if !is_header_of(first, b"kasm") {
        return Err(SourceFault::Bad { line: 1 });
    }
    let image = image_text(alloc, rest)?;
    match read_image(alloc, image.as_slice()) {
        Ok(image) => Ok(image),
        Err(fault) => Err(source_fault(fault)),
    }
}
