//! Writing of an image file.

ghost use Rattle.std.specs.Prelude.{◌≡◌, ◌+◌, ◌*◌, ◌/◌, ◌<◌, ◌≤◌, ◌++◌, length, take, drop, Ok, IsTrue, IfOk, OnOk};
ghost use Rattle.std.specs.Int.{w64, from_le_bytes};
ghost use Rattle.std.specs.List.{AllByRecursion};
ghost use Rattle.mem_map.specs.Parts.{segments_of};
ghost use Rattle.img_text.specs.Image.{IsImage};
ghost use Rattle.img_text.specs.Reading.{has_text, image_of};
ghost use Rattle.img_text.specs.Writing.{name_of, directive_text, values_of, values_text, written_values, part_text, parts_text, start_text, starts_text, image_text, StartFits};

use crate::image::Image;
use mach_base::{Kind, OutOfMemory, Segment, push_dec};
use std::alloc::Global;

/// A text that reads as this image: docs/formats.md has the format `kimg`. Only the text's meaning is fixed. The
/// image must have a text segment, since every text that is read has one.
pub fn write_image(alloc: Global, image: &Image) -> Result<Vec<u8>, OutOfMemory>
    requires { IsTrue (has_text (segments_of image.now.parts)) }
    ensures { IfOk result (λ text. image_of text.items ≡ Ok image.now) }
{
    let text = image_text(alloc, image)?;
    Ok(text)
}

#[tactic(auto, unfolding(crate::specs::Writing::image_text))]
fn image_text(alloc: Global, image: &Image) -> Result<Vec<u8>, OutOfMemory>
    ensures text { IfOk result (λ text. text.items ≡ image_text image.now) }
    ensures rules { IsImage image.now }
    ensures pcs { OnOk result (AllByRecursion StartFits image.now.pcs) }
    ensures sps { OnOk result (AllByRecursion StartFits image.now.sps) }
{
    let mut out = Vec::new(alloc);
    let segments = image.segments();
    push_directive(&mut out, b"kimg", &[1])?;
    push_parts(&mut out, image, segments)?;
    push_starts(&mut out, b"pc", image.pcs())?;
    push_starts(&mut out, b"sp", image.sps())?;
    Ok(out)
}

/// Appends a line of a word and numbers.
fn push_directive(out: &mut Vec<u8>, name: &[u8], numbers: &[u64]) -> Result<(), OutOfMemory>
    ensures { OnOk result (out.new.items ≡ out.old.items ++ directive_text name.now numbers.now) }
{
    out.extend_from_slice(name)?;
    for number in numbers {
        out.push(b' ')?;
        push_dec(out, *number)?;
    }
    out.push(b'\n')?;
    Ok(())
}

fn name_of(kind: Kind) -> &'static [u8]
    ensures { result.now ≡ name_of kind }
{
    match kind {
        Kind::Text => b"text",
        Kind::Data => b"data",
        Kind::Rodata => b"rodata",
    }
}

/// Appends the segments of an image with their values.
fn push_parts(out: &mut Vec<u8>, image: &Image, segments: &[Segment]) -> Result<(), OutOfMemory>
    requires { segments.now ≡ segments_of image.now.parts }
    ensures { OnOk result (out.new.items ≡ out.old.items ++ parts_text image.now.parts) }
{
    for (i, segment) in segments.iter().enumerate() {
        push_part(out, *segment, image.contents(i))?;
    }
    Ok(())
}

/// Appends a segment with its values.
#[tactic(auto, unfolding(crate::specs::Writing::part_text))]
fn push_part(out: &mut Vec<u8>, segment: Segment, bytes: &[u8]) -> Result<(), OutOfMemory>
    ensures { OnOk result (out.new.items ≡ out.old.items ++ part_text (record { segment = segment; bytes = bytes.now })) }
{
    push_directive(out, name_of(segment.kind), &[segment.base, segment.len])?;
    push_values(out, bytes)?;
    Ok(())
}

/// Appends a line for each eight bytes, up to the last byte that isn't 0.
fn push_values(out: &mut Vec<u8>, bytes: &[u8]) -> Result<(), OutOfMemory>
    ensures { OnOk result (out.new.items ≡ out.old.items ++ values_text (written_values bytes.now)) }
{
    let count = used_count(bytes);
    let mut left = bytes;
    for _ in 0..count {
        let (front, rest) = left.split_at(8);
        push_directive(out, b"d", &[value_of(front)])?;
        left = rest;
    }
    Ok(())
}

/// How many values of eight bytes there are up to the last that isn't 0.
fn used_count(bytes: &[u8]) -> usize
    ensures value { values_of result bytes.now ≡ written_values bytes.now }
    ensures few { 8 * result ≤ length bytes.now }
{
    let count = bytes.len() / 8;
    for left_out in 0..count {
        if value_at(bytes, count - 1 - left_out) != 0 {
            return count - left_out;
        }
    }
    0
}

/// The value of this number, from 0, of those that the bytes have.
fn value_at(bytes: &[u8], number: usize) -> u64
    requires { number < length bytes.now / 8 }
    ensures { result ≡ from_le_bytes w64 (take 8 (drop (8 * number) bytes.now)) }
{
    let (_, rest) = bytes.split_at(8 * number);
    let (front, _) = rest.split_at(8);
    value_of(front)
}

/// The value of eight bytes, the lowest first.
fn value_of(bytes: &[u8]) -> u64
    requires { length bytes.now ≡ 8 }
    ensures { result ≡ from_le_bytes w64 bytes.now }
{
    u64::from_le_bytes([
        bytes[0], bytes[1], bytes[2], bytes[3], bytes[4], bytes[5], bytes[6], bytes[7],
    ])
}

/// Appends the starts that are given, of hart 0 first.
fn push_starts(out: &mut Vec<u8>, name: &[u8], starts: &[Option<u64>]) -> Result<(), OutOfMemory>
    ensures text { OnOk result (out.new.items ≡ out.old.items ++ starts_text name.now 0 starts.now) }
    ensures fits { OnOk result (AllByRecursion StartFits starts.now) }
{
    for (hart, start) in starts.iter().enumerate() {
        push_start(out, name, hart as u64, *start)?;
    }
    Ok(())
}

/// Appends a start, if it is given.
fn push_start(
    out: &mut Vec<u8>,
    name: &[u8],
    hart: u64,
    start: Option<u64>,
) -> Result<(), OutOfMemory>
    ensures text { OnOk result (out.new.items ≡ out.old.items ++ start_text name.now hart start) }
    ensures fits { OnOk result (StartFits start) }
{
    if let Some(addr) = start {
        push_directive(out, name, &[hart, addr])?;
    }
    Ok(())
}
