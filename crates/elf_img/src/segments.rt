//! The segments of memory that a file's loads become, and the image that they make.

ghost use Rattle.std.specs.Prelude.{◌≡◌, ◌+◌, ◌^◌, ◌<◌, ◌≤◌, true, length, map, IsTrue, OnOk, IfOk};
ghost use Rattle.std.specs.List.{list_all, AllByRecursion};
ghost use Rattle.mach_base.specs.Machine.{AreSegments, HasBounds, memory_size, is_text_segment};
ghost use Rattle.img_text.specs.Reading.{has_text};
ghost use Rattle.elf_img.specs.Causes.{Passes};
ghost use Rattle.elf_img.specs.Segments.{segment_of, has_bounds, are_in_order, file_bytes, segment_causes, size_causes};

use crate::MOST_FILE_BYTES;
use crate::fault::{ElfFault, ElfWhy};
use crate::program::{ProgramHeader, kind_of};
use mach_base::{Kind, MOST_MEMORY, MOST_SEGMENTS, OutOfMemory, Segment, What};
use std::alloc::Global;

/// The segment of memory that a load becomes.
pub fn segment_of(h: ProgramHeader) -> Segment
    requires { h.address + h.memory_size ≤ 0x7fff_ffff_ffff_fff8 }
    ensures { result ≡ segment_of h }
{
    let base = h.address / 8 * 8;
    let end = (h.address + h.memory_size + 7) / 8 * 8;
    Segment {
        base,
        len: end - base,
        kind: kind_of(h),
    }
}

/// The segments of memory that loads become, in order.
pub fn segments_of(
    alloc: Global,
    len: u64,
    loads: &[ProgramHeader],
) -> Result<Vec<Segment>, OutOfMemory>
    requires { list_all (has_bounds len) loads.now ≡ true }
    ensures { IfOk result (λ segments. segments.items ≡ map segment_of loads.now) }
{
    let mut segments = Vec::with_capacity(alloc, loads.len())?;
    for h in loads {
        segments.push(segment_of(*h))?;
    }
    Ok(segments)
}

/// Refuses segments that overlap, have no text, or are too many or too large.
#[tactic(auto, using(crate::proofs::Orders::size_fits, crate::proofs::Orders::are_segments), unfolding(crate::specs::Segments::segment_causes))]
pub fn check_segments(segments: &[Segment]) -> Result<(), ElfFault>
    requires { AllByRecursion HasBounds segments.now }
    ensures passes { Passes result (segment_causes segments.now) }
    ensures rules { OnOk result (AreSegments segments.now) }
    ensures text { OnOk result (IsTrue (has_text segments.now)) }
{
    if !are_in_order(segments) {
        return Err(ElfFault::Bad(ElfWhy::Order));
    }
    if !has_text(segments) {
        return Err(ElfFault::Bad(ElfWhy::NoText));
    }
    if segments.len() > MOST_SEGMENTS {
        let what = What::Segments;
        let size = segments.len() as u64;
        return Err(ElfFault::TooLarge { what, size });
    }
    let size = memory_size(segments);
    if size > MOST_MEMORY {
        let what = What::Memory;
        return Err(ElfFault::TooLarge { what, size });
    }
    Ok(())
}

/// Whether no segment begins below the end of the one before.
fn are_in_order(segments: &[Segment]) -> bool
    requires { AllByRecursion HasBounds segments.now }
    ensures { result ≡ are_in_order 0 segments.now }
{
    let mut end = 0;
    for segment in segments {
        if segment.base < end {
            return false;
        }
        end = segment.base + segment.len;
    }
    true
}

/// Whether a segment holds text.
fn has_text(segments: &[Segment]) -> bool
    ensures { result ≡ has_text segments.now }
{
    segments.iter().any(|segment| is_text(*segment))
}

fn is_text(segment: Segment) -> bool
    ensures { result ≡ is_text_segment (Some segment) }
{
    match segment.kind {
        Kind::Text => true,
        Kind::Data | Kind::Rodata => false,
    }
}

/// The bytes of all segments together.
fn memory_size(segments: &[Segment]) -> u64
    requires { memory_size segments.now < 2 ^ 64 }
    ensures { result ≡ memory_size segments.now }
{
    segments.iter().map(|segment| segment.len).sum()
}

/// Refuses a file that has too many bytes for its segments.
#[tactic(auto, unfolding(crate::specs::Segments::size_causes))]
pub fn check_sizes(loads: &[ProgramHeader]) -> Result<(), ElfFault>
    requires { file_bytes loads.now < 2 ^ 64 }
    ensures { Passes result (size_causes loads.now) }
{
    let size = file_bytes(loads);
    if size > MOST_FILE_BYTES {
        let what = What::FileBytes;
        return Err(ElfFault::TooLarge { what, size });
    }
    Ok(())
}

fn file_bytes(loads: &[ProgramHeader]) -> u64
    requires { file_bytes loads.now < 2 ^ 64 }
    ensures { result ≡ file_bytes loads.now }
{
    loads.iter().map(|h| h.file_size).sum()
}
