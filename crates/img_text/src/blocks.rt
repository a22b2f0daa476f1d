//! The segments of an image while it is read.

ghost use Rattle.std.specs.Prelude.{◌≡◌, ◌+◌, ◌*◌, ◌<◌, ◌≤◌, ◌^◌, [], ◌∷◌, ◌++◌, length, map, OnOk};
ghost use Rattle.std.specs.List.{flat_map};
ghost use Rattle.mach_base.specs.Machine.{memory_size, is_text_segment};
ghost use Rattle.img_text.specs.Directives.{size_of};
ghost use Rattle.mem_map.specs.Parts.{segments_of};
ghost use Rattle.img_text.specs.Reading.{AreSound, Leaves, begin, put, end_of, has_bounds, has_text, value_bytes};
ghost use Rattle.img_text.specs.Blocks.{parts_of, latest_first};

use crate::directive::{Width, size_of};
use crate::fault::{LineFault, Why};
use mach_base::{Kind, OutOfMemory, Segment};

/// A segment with the bytes that were put into it so far.
#[derive(Drop)]
pub struct Block {
    pub segment: Segment,
    pub bytes: Vec<u8>,
}

/// Begins a segment.
pub fn begin(blocks: &mut Vec<Block>, segment: Segment) -> Result<(), LineFault>
    requires { AreSound (latest_first blocks.old.items) }
    ensures { Leaves result (latest_first blocks.new.items) (begin segment (latest_first blocks.old.items)) }
{
    if !has_bounds(segment) {
        return Err(LineFault::Refused(Why::Bounds));
    }
    if segment.base < end_of(blocks.as_slice()) {
        return Err(LineFault::Refused(Why::Order));
    }
    let bytes = Vec::new(*blocks.allocator());
    push(blocks, Block { segment, bytes })?;
    Ok(())
}

/// Appends a block.
fn push(blocks: &mut Vec<Block>, block: Block) -> Result<(), OutOfMemory>
    ensures { OnOk result (blocks.new.items ≡ blocks.old.items ++ block ∷ []) }
{
    blocks.push(block)?;
    Ok(())
}

fn has_bounds(segment: Segment) -> bool
    ensures { result ≡ has_bounds segment }
{
    let top = 1 << 63;
    segment.base % 8 == 0
        && segment.len % 8 == 0
        && segment.len > 0
        && segment.base <= top
        && segment.len <= top - segment.base
}

/// Where the latest segment ends.
fn end_of(blocks: &[Block]) -> u64
    requires { AreSound (latest_first blocks.now) }
    ensures { result ≡ end_of (latest_first blocks.now) }
{
    match blocks {
        [] => 0,
        [.., latest] => latest.segment.base + latest.segment.len,
    }
}

/// Puts values into the latest segment.
pub fn put(blocks: &mut Vec<Block>, width: Width, values: &[u64]) -> Result<(), LineFault>
    requires few { length values.now ≤ 8 }
    requires sound { AreSound (latest_first blocks.old.items) }
    ensures { Leaves result (latest_first blocks.new.items) (put width values.now (latest_first blocks.old.items)) }
{
    let Some(mut latest) = blocks.pop() else {
        return Err(LineFault::Refused(Why::Overrun));
    };
    let size = latest.bytes.len() + size_of(width) * values.len();
    if size as u64 > latest.segment.len {
        return Err(LineFault::Refused(Why::Overrun));
    }
    push_values(&mut latest.bytes, width, values)?;
    push(blocks, latest)?;
    Ok(())
}

/// Appends the bytes of the values, the lowest of each first.
fn push_values(out: &mut Vec<u8>, width: Width, values: &[u64]) -> Result<(), OutOfMemory>
    ensures { OnOk result (out.new.items ≡ out.old.items ++ flat_map (value_bytes width) values.now) }
{
    for value in values {
        push_value(out, width, *value)?;
    }
    Ok(())
}

fn push_value(out: &mut Vec<u8>, width: Width, value: u64) -> Result<(), OutOfMemory>
    ensures { OnOk result (out.new.items ≡ out.old.items ++ value_bytes width value) }
{
    let bytes = value.to_le_bytes();
    out.extend_from_slice(&bytes[..size_of(width)])?;
    Ok(())
}

/// Whether a segment holds text.
pub fn has_text(blocks: &[Block]) -> bool
    ensures { result ≡ has_text (segments_of (parts_of blocks.now)) }
{
    for block in blocks {
        if is_text(block.segment) {
            return true;
        }
    }
    false
}

fn is_text(segment: Segment) -> bool
    ensures { result ≡ is_text_segment (Some segment) }
{
    match segment.kind {
        Kind::Text => true,
        Kind::Data | Kind::Rodata => false,
    }
}

/// The bytes of all segments together.
pub fn memory_size(blocks: &[Block]) -> u64
    requires { memory_size (segments_of (parts_of blocks.now)) < 2 ^ 64 }
    ensures { result ≡ memory_size (segments_of (parts_of blocks.now)) }
{
    blocks.iter().map(|block| block.segment.len).sum()
}
