ghost use Rattle.std.specs.Prelude.{◌≡◌, ◌≤◌, IfOk, nat_le};
ghost use Rattle.std.specs.List.Sorted.{IsNonDecreasing};
ghost use Rattle.mach_base.specs.declared.limits.TheConstants.{MOST_MEMORY};
ghost use Rattle.mach_base.specs.Machine.{AreSegments};
ghost use Rattle.mem_map.specs.Pages.{IsCountUpTo, first_pages, page_total, pages_in};

use mach_base::{OutOfMemory, Segment};
use std::alloc::Global;

/// How many bytes a page has; the last page of a segment may have fewer.
pub const PAGE_BYTES: u64 = 4096;

/// A page of memory.
#[derive(Clone, Copy, Debug)]
pub struct Page<'a> {
    /// The address of its first byte.
    pub base: u64,
    /// Its bytes, 1 to `PAGE_BYTES` of them.
    pub bytes: &'a [u8],
    /// Whether it is marked: it was written to since the marks were last taken away.
    pub changed: bool,
}

/// The pages of segments: the first of each segment, and how many there are.
pub struct Layout {
    pub firsts: Vec<usize>,
    pub count: usize,
}

fn pages_in(segment: Segment) -> usize
    requires { segment.len ≤ MOST_MEMORY }
    ensures { result ≡ pages_in segment }
{
    ((segment.len + (PAGE_BYTES - 1)) / PAGE_BYTES) as usize
}

/// The pages of these segments.
pub fn lay_out(alloc: Global, segments: &[Segment]) -> Result<Layout, OutOfMemory>
    requires { AreSegments segments.now }
    ensures firsts { IfOk result (λ layout. layout.firsts.items ≡ first_pages 0 segments.now) }
    ensures count { IfOk result (λ layout. layout.count ≡ page_total segments.now) }
{
    let mut firsts = Vec::with_capacity(alloc, segments.len())?;
    let mut count = 0;
    for segment in segments {
        firsts.push(count)?;
        count += pages_in(*segment);
    }
    Ok(Layout { firsts, count })
}

/// How many of the segments begin with this page or one before it, by the first page of each.
pub fn count_up_to(firsts: &[usize], page: usize) -> usize
    requires { IsNonDecreasing firsts.now }
    ensures { IsCountUpTo firsts.now page result }
{
    firsts.partition_point(
        |first: &usize| -> bool
            ensures { result ≡ nat_le first.now page }
        { *first <= page },
    )
}
