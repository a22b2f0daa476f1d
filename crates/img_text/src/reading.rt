//! Reading of an image file.

ghost use Rattle.std.specs.Prelude.{◌≡◌, ◌≤◌, ◌<◌, [], length, map, IfOk};
ghost use Rattle.std.specs.List.{AllByRecursion};
ghost use Rattle.mach_base.specs.Machine.{AreSegments};
ghost use Rattle.mach_base.specs.Lines.{lines_of};
ghost use Rattle.mem_map.specs.Parts.{segments_of};
ghost use Rattle.img_text.specs.Image.{filled};
ghost use Rattle.img_text.specs.Directives.{least_of};
ghost use Rattle.img_text.specs.Reading.{AreSound, IsShort, Leaves, Gives, start, applied, numbered, read_line, read_lines, whole_image, no_starts, image_of};
ghost use Rattle.img_text.specs.Blocks.{parts_of, latest_first};
ghost use Rattle.img_text.specs.Reader.{draft_of};

use crate::blocks::{Block, begin, has_text, memory_size, put};
use crate::directive::Directive;
use crate::fault::{ImageFault, LineFault, Why};
use crate::image::{HARTS, Image};
use crate::line::line_of;
use mach_base::{
    MOST_HARTS, MOST_MEMORY, MOST_SEGMENTS, OutOfMemory, Segment, What, is_header_of, next_line,
};
use std::alloc::Global;

/// What the lines so far give.
#[derive(Drop)]
pub struct Reader {
    parts: Vec<Block>,
    pcs: [Option<u64>; HARTS],
    sps: [Option<u64>; HARTS],
}

/// Reads an image file. `Bad` names the first faulty line, counted from 1, and what is wrong with it, one past the
/// last line where no segment holds text; `TooLarge` comes for a file whose lines are all right, with the first count
/// that is over its limit. docs/formats.md has the format `kimg`.
#[tactic(auto, unfolding(crate::specs::Reading::image_of_lines))]
pub fn read_image(alloc: Global, text: &[u8]) -> Result<Image, ImageFault>
    ensures { Gives result (image_of text.now) }
{
    let header = ImageFault::Bad {
        line: 1,
        why: Why::Header,
    };
    let Some((first, rest)) = next_line(text) else {
        return Err(header);
    };
    if !is_header_of(first, b"kimg") {
        return Err(header);
    }
    read_lines(alloc, rest)
}

/// Reads the lines from the second on.
fn read_lines(alloc: Global, text: &[u8]) -> Result<Image, ImageFault>
    ensures { Gives result (read_lines 2 (record { parts = []; pcs = no_starts; sps = no_starts }) (lines_of text.now)) }
{
    let mut reader = Reader {
        parts: Vec::new(alloc),
        pcs: [None; HARTS],
        sps: [None; HARTS],
    };
    let mut line = 2;
    let mut left = text;
    while let Some((first, rest)) = next_line(left) {
        match read_line(&mut reader, first) {
            Ok(()) => {
                line += 1;
                left = rest;
            }
            Err(fault) => return Err(numbered(fault, line)),
        }
    }
    let Reader { parts, pcs, sps } = reader;
    whole_image(alloc, line, parts.as_slice(), pcs, sps)
}

/// The fault of the line of this number.
fn numbered(fault: LineFault, line: u64) -> ImageFault
    ensures { result ≡ numbered line fault }
{
    match fault {
        LineFault::Refused(why) => ImageFault::Bad { line, why },
        LineFault::NoMemory => ImageFault::OutOfMemory,
    }
}

/// Reads one line.
#[tactic(auto, unfolding(crate::specs::Reading::read_line))]
fn read_line(reader: &mut Reader, line: &[u8]) -> Result<(), LineFault>
    requires { AreSound (draft_of reader.old).parts }
    ensures { Leaves result (draft_of reader.new) (read_line (draft_of reader.old) line.now) }
{
    if let Some((directive, values)) = line_of(line)? {
        apply(reader, directive, values.as_slice())?;
    }
    Ok(())
}

/// Does what the directive says with its numbers.
#[tactic(auto, unfolding(crate::specs::Reading::applied))]
fn apply(reader: &mut Reader, directive: Directive, values: &[u64]) -> Result<(), LineFault>
    requires some { least_of directive ≤ length values.now }
    requires few { length values.now ≤ 8 }
    requires sound { AreSound (draft_of reader.old).parts }
    ensures { Leaves result (draft_of reader.new) (applied (draft_of reader.old) directive values.now) }
{
    match directive {
        Directive::Begin(kind) => {
            let segment = Segment {
                base: values[0],
                len: values[1],
                kind,
            };
            begin(&mut reader.parts, segment)?;
        }
        Directive::Put(width) => put(&mut reader.parts, width, values)?,
        Directive::Pc => start(&mut reader.pcs, values[0], values[1])?,
        Directive::Sp => start(&mut reader.sps, values[0], values[1])?,
    }
    Ok(())
}

/// Gives a start to a hart number that has none.
fn start(starts: &mut [Option<u64>; HARTS], hart: u64, addr: u64) -> Result<(), LineFault>
    ensures { Leaves result starts.new (start hart addr starts.old) }
{
    if hart >= u64::from(MOST_HARTS) || starts[hart as usize].is_some() {
        return Err(LineFault::Refused(Why::Hart));
    }
    starts[hart as usize] = Some(addr);
    Ok(())
}

/// The image of these segments, where the last line is the one before this number.
#[tactic(auto, unfolding(crate::specs::Reading::whole_image))]
fn whole_image(
    alloc: Global,
    line: u64,
    blocks: &[Block],
    pcs: [Option<u64>; HARTS],
    sps: [Option<u64>; HARTS],
) -> Result<Image, ImageFault>
    requires { AreSound (latest_first blocks.now) }
    ensures { Gives result (whole_image line (parts_of blocks.now) pcs sps) }
{
    if !has_text(blocks) {
        let why = Why::NoText;
        return Err(ImageFault::Bad { line, why });
    }
    let count = blocks.len() as u64;
    if blocks.len() > MOST_SEGMENTS {
        let what = What::Segments;
        return Err(ImageFault::TooLarge { what, size: count });
    }
    let size = memory_size(blocks);
    if size > MOST_MEMORY {
        let what = What::Memory;
        return Err(ImageFault::TooLarge { what, size });
    }
    let image = build(alloc, blocks, pcs, sps)?;
    Ok(image)
}

/// The image of segments that keep the rules and the limits.
fn build(
    alloc: Global,
    blocks: &[Block],
    pcs: [Option<u64>; HARTS],
    sps: [Option<u64>; HARTS],
) -> Result<Image, OutOfMemory>
    requires rules { AreSegments (segments_of (parts_of blocks.now)) }
    requires short { AllByRecursion IsShort (parts_of blocks.now) }
    ensures { IfOk result (λ image. image ≡ record { parts = map (λ p. filled p.segment p.bytes) (parts_of blocks.now); pcs = pcs; sps = sps }) }
{
    let mut image = Image::with_starts(alloc, pcs, sps);
    for block in blocks {
        image.add(block.segment, block.bytes.as_slice())?;
    }
    Ok(image)
}
