ghost use Rattle.std.specs.Prelude.{◌≡◌, ◌≤◌, ◌<◌, IfOk};
ghost use Rattle.mach_base.specs.Machine.{memory_of};
ghost use Rattle.mem_map.specs.Pages.{unmarked};
ghost use Rattle.img_text.specs.Boot.{first_text, first_context, first_contexts};

use crate::image::Image;
use hart_ctx::Context;
use mach_base::{Hart, Kind, OutOfMemory, Segment, Text};
use mem_map::Map;
use std::alloc::Global;

/// What an image gives a machine at its start.
#[derive(Debug, Drop)]
pub struct Booted {
    /// Memory, with the image's bytes; no page is marked.
    pub map: Map,
    /// A context for each hart, in order.
    pub ctxs: Vec<Context>,
}

/// The memory of the image, and the contexts of so many harts at the start: each at the pc that the image gives it, else
/// at the first text segment, and with the sp that the image gives it, else 0 (docs/formats.md, "Images").
pub fn boot(alloc: Global, image: &Image, harts: u8) -> Result<Booted, OutOfMemory>
    ensures memory { IfOk result (λ booted. booted.map.memory ≡ memory_of image.now.parts) }
    ensures pages { IfOk result (λ booted. booted.map ≡ unmarked (memory_of image.now.parts)) }
    ensures contexts { IfOk result (λ booted. booted.ctxs.items ≡ first_contexts image.now harts) }
{
    let map = boot_memory(alloc, image)?;
    let ctxs = boot_contexts(alloc, image, harts)?;
    Ok(Booted { map, ctxs })
}

fn boot_contexts(alloc: Global, image: &Image, harts: u8) -> Result<Vec<Context>, OutOfMemory>
    ensures { IfOk result (λ ctxs. ctxs.items ≡ first_contexts image.now harts) }
{
    let mut ctxs = Vec::with_capacity(alloc, usize::from(harts))?;
    for hart in 0..harts {
        ctxs.push(first_context(image, Hart(hart)))?;
    }
    Ok(ctxs)
}

/// The memory that an image gives.
fn boot_memory(alloc: Global, image: &Image) -> Result<Map, OutOfMemory>
    ensures { IfOk result (λ map. map ≡ unmarked (memory_of image.now.parts)) }
{
    let segments = image.segments();
    let mut contents = Vec::with_capacity(alloc, segments.len())?;
    for i in 0..segments.len() {
        contents.push(Text::from_vec(Vec::from_slice(alloc, image.contents(i))?))?;
    }
    Map::filled(alloc, segments, contents.as_slice())
}

/// The context with which a hart starts.
fn first_context(image: &Image, hart: Hart) -> Context
    ensures { result ≡ first_context image.now hart.0 }
{
    let pc = match image.pc(hart) {
        Some(pc) => pc,
        None => first_text(image.segments()),
    };
    Context::new(pc, image.sp(hart).unwrap_or(0))
}

/// The base of the first text segment, or 0.
fn first_text(segments: &[Segment]) -> u64
    ensures { result ≡ first_text segments.now }
{
    for segment in segments {
        if matches!(segment.kind, Kind::Text) {
            return segment.base;
        }
    }
    0
}
