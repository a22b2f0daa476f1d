//! An image of memory, and where its harts start.

use crate::filling::with_zeros;
use mach_base::{Hart, MOST_HARTS, OutOfMemory, Segment};
use std::alloc::Global;
use std::marker::Model;

/// As many starts as a machine may have harts.
pub const HARTS: usize = MOST_HARTS as usize;

/// An image: segments in order, each with its bytes, and for each hart number below `MOST_HARTS` the pc and the sp to
/// start with, or none. Its segments keep the rules and the limits of docs/formats.md.
#[derive(Drop)]
pub struct Image {
    segments: Vec<Segment>,
    contents: Vec<Vec<u8>>,
    pcs: [Option<u64>; HARTS],
    sps: [Option<u64>; HARTS],
}

impl Model for Image {
    ghost use Rattle.std.specs.Prelude.{◌≡◌, map, length};
    ghost use Rattle.mem_map.specs.Parts.{parts_of};
    ghost use Rattle.img_text.specs.Image.{ImageRecord, IsImage};

    ghost Value = { ImageRecord };

    ghost view = { λ i. record { parts = parts_of i.segments.items (map (λ v. v.items) i.contents.items); pcs = i.pcs; sps = i.sps } };

    ghost invariant = { λ i. (length i.contents.items ≡ length i.segments.items) × IsImage (record { parts = parts_of i.segments.items (map (λ v. v.items) i.contents.items); pcs = i.pcs; sps = i.sps }) };
}

impl Image {
    ghost use Rattle.std.specs.Prelude.{◌≡◌, ◌+◌, ◌<◌, ◌≤◌, [], ◌∷◌, ◌++◌, length, map, replicate, OnOk, OnErr, Some, None, slice_set, slice_index_or, slice_get, option_map};
    ghost use Rattle.mach_base.specs.Machine.{AreSegments};
    ghost use Rattle.mach_base.specs.declared.limits.TheConstants.{MOST_HARTS};
    ghost use Rattle.mem_map.specs.Parts.{segments_of};
    ghost use Rattle.img_text.specs.Image.{ImageRecord, IsImage, filled};

    /// An image without a segment and without starts. It takes no memory.
    pub fn new(alloc: Global) -> Image
        ensures { result ≡ record { parts = []; pcs = replicate MOST_HARTS None; sps = replicate MOST_HARTS None } }
    {
        Image::with_starts(alloc, [None; HARTS], [None; HARTS])
    }

    /// An image without a segment and with these starts.
    pub(crate) fn with_starts(
        alloc: Global,
        pcs: [Option<u64>; HARTS],
        sps: [Option<u64>; HARTS],
    ) -> Image
        ensures { result ≡ record { parts = []; pcs = pcs; sps = sps } }
    {
        Image {
            segments: Vec::new(alloc),
            contents: Vec::new(alloc),
            pcs,
            sps,
        }
    }

    /// Appends a segment that begins with these bytes and goes on with zeros.
    pub fn add(&mut self, segment: Segment, bytes: &[u8]) -> Result<(), OutOfMemory>
        requires rules { AreSegments (segments_of self.old.parts ++ segment ∷ []) }
        requires fits { length bytes.now ≤ segment.len }
        ensures ok { OnOk result (self.new ≡ record self.old { parts = self.old.parts ++ filled segment bytes.now ∷ [] }) }
        ensures err { OnErr result (self.new ≡ self.old) }
    {
        let whole = with_zeros(*self.segments.allocator(), bytes, segment.len)?;
        self.segments.reserve(1)?;
        self.contents.push(whole)?;
        self.segments.push_reserved(segment);
        Ok(())
    }

    /// The segments in order.
    pub fn segments(&self) -> &[Segment]
        ensures value { result.now ≡ segments_of self.now.parts }
        ensures rules { IsImage self.now }
    {
        self.segments.as_slice()
    }

    /// The bytes of the segment of this index, one for each of its addresses.
    pub(crate) fn contents(&self, i: usize) -> &[u8]
        requires { i < length self.now.parts }
        ensures { option_map (λ p. p.bytes) (slice_get self.now.parts i) ≡ Some result.now }
    {
        self.contents[i].as_slice()
    }

    /// Where the hart starts, if that is given.
    #[tactic(auto, using(crate::proofs::Harts::start_past))]
    pub fn pc(&self, h: Hart) -> Option<u64>
        ensures { result ≡ slice_index_or self.now.pcs h.0 None }
    {
        if usize::from(h.0) < HARTS {
            self.pcs[usize::from(h.0)]
        } else {
            None
        }
    }

    /// The stack pointer with which the hart starts, if that is given.
    #[tactic(auto, using(crate::proofs::Harts::start_past))]
    pub fn sp(&self, h: Hart) -> Option<u64>
        ensures { result ≡ slice_index_or self.now.sps h.0 None }
    {
        if usize::from(h.0) < HARTS {
            self.sps[usize::from(h.0)]
        } else {
            None
        }
    }

    /// Where each hart starts.
    pub(crate) fn pcs(&self) -> &[Option<u64>]
        ensures { result.now ≡ self.now.pcs }
    {
        self.pcs.as_slice()
    }

    /// The stack pointer with which each hart starts.
    pub(crate) fn sps(&self) -> &[Option<u64>]
        ensures { result.now ≡ self.now.sps }
    {
        self.sps.as_slice()
    }

    /// The hart starts at this address.
    pub fn set_pc(&mut self, h: Hart, addr: u64)
        requires { h.0 < MOST_HARTS }
        ensures { self.new ≡ record self.old { pcs = slice_set self.old.pcs h.0 (Some addr) } }
    {
        self.pcs[usize::from(h.0)] = Some(addr);
    }

    /// The hart starts with this stack pointer.
    pub fn set_sp(&mut self, h: Hart, addr: u64)
        requires { h.0 < MOST_HARTS }
        ensures { self.new ≡ record self.old { sps = slice_set self.old.sps h.0 (Some addr) } }
    {
        self.sps[usize::from(h.0)] = Some(addr);
    }
}
