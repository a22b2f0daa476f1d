//! The image that loads make.

ghost use Rattle.std.specs.Prelude.{◌≡◌, ◌+◌, ◌≤◌, true, [], length, map, replicate, None, Some, IfOk};
ghost use Rattle.mach_base.specs.declared.limits.TheConstants.{MOST_HARTS};
ghost use Rattle.std.specs.List.{list_all};
ghost use Rattle.mach_base.specs.Machine.{AreSegments};
ghost use Rattle.elf_img.specs.Segments.{segment_of, has_bounds, part_of, bytes_of};

use crate::bytes::range_at;
use crate::program::ProgramHeader;
use crate::segments::segment_of;
use img_text::Image;
use mach_base::{Hart, MOST_HARTS, OutOfMemory};
use std::alloc::Global;

/// The image of loads, in which each hart starts at the entry.
pub fn build(
    alloc: Global,
    file: &[u8],
    loads: &[ProgramHeader],
    entry: u64,
) -> Result<Image, OutOfMemory>
    requires bounds { list_all (has_bounds (length file.now)) loads.now ≡ true }
    requires rules { AreSegments (map segment_of loads.now) }
    ensures { IfOk result (λ image. image ≡ record { parts = map (part_of file.now) loads.now; pcs = replicate MOST_HARTS (Some entry); sps = replicate MOST_HARTS None }) }
{
    let mut image = started(alloc, entry);
    for h in loads {
        let bytes = bytes_of(alloc, file, *h)?;
        image.add(segment_of(*h), bytes.as_slice())?;
    }
    Ok(image)
}

/// An image without a segment, in which each hart starts at the entry.
fn started(alloc: Global, entry: u64) -> Image
    ensures { result ≡ record { parts = []; pcs = replicate MOST_HARTS (Some entry); sps = replicate MOST_HARTS None } }
{
    let mut image = Image::new(alloc);
    for hart in 0..MOST_HARTS {
        image.set_pc(Hart(hart), entry);
    }
    image
}

/// The bytes with which the segment of a load begins: zeros up to the load's address, then those of the file.
fn bytes_of(alloc: Global, file: &[u8], h: ProgramHeader) -> Result<Vec<u8>, OutOfMemory>
    requires { has_bounds (length file.now) h ≡ true }
    ensures { IfOk result (λ bytes. bytes.items ≡ bytes_of file.now h) }
{
    let mut bytes = Vec::new(alloc);
    bytes.resize((h.address % 8) as usize, 0)?;
    bytes.extend_from_slice(range_at(file, h.offset, h.file_size))?;
    Ok(bytes)
}
