ghost use Rattle.std.specs.Prelude.{◌≡◌, ℕ, ◌+◌, ◌-◌, ◌^◌, ◌<◌, ◌≤◌, IfOk, IsTrue, length, drop, slice_index, slice_set, take};
ghost use Rattle.mach_base.specs.Machine.{holds};
ghost use Rattle.mach_base.specs.Bytes.{IsWidth};
ghost use Rattle.mem_map.specs.Parts.{zero_part, number_at, with_number, with_text};
ghost use Rattle.mem_map.specs.declared.pages.TheConstants.{PAGE_BYTES};

use crate::pages::PAGE_BYTES;
use mach_base::{Kind, OutOfMemory, Segment};
use std::alloc::Global;
use std::marker::Model;

/// A segment with its bytes in order. Contracts see it as a `Part` of mach_base.
#[derive(Debug, Drop)]
pub struct Piece {
    segment: Segment,
    bytes: Vec<u8>,
}

impl Model for Piece {
    ghost use Rattle.mach_base.specs.Machine.{Part};

    ghost Value = { Part };

    ghost view = { λ p. record { segment = p.segment; bytes = p.bytes.items } };
}

impl Piece {
    /// The segment with all bytes 0.
    pub fn zeroed(alloc: Global, segment: Segment) -> Result<Piece, OutOfMemory>
        ensures { IfOk result (λ piece. piece ≡ zero_part segment) }
    {
        let bytes = vec![in alloc; 0; segment.len as usize]?;
        Ok(Piece { segment, bytes })
    }

    /// The segment with a copy of these bytes.
    pub fn filled(alloc: Global, segment: Segment, bytes: &[u8]) -> Result<Piece, OutOfMemory>
        ensures { IfOk result (λ piece. piece ≡ record { segment = segment; bytes = bytes.now }) }
    {
        let bytes = Vec::from_slice(alloc, bytes)?;
        Ok(Piece { segment, bytes })
    }

    pub fn kind(&self) -> Kind
        ensures { result ≡ self.now.segment.kind }
    {
        self.segment.kind
    }

    /// Whether the segment holds the address.
    pub fn holds(&self, addr: u64) -> bool
        ensures { result ≡ holds self.now.segment addr }
    {
        addr >= self.segment.base && addr - self.segment.base < self.segment.len
    }

    /// The place of the address's byte, from 0.
    pub fn place(&self, addr: u64) -> usize
        requires { self.now.segment.base ≤ addr }
        ensures { result ≡ addr - self.now.segment.base }
    {
        (addr - self.segment.base) as usize
    }

    /// The address of the first byte.
    pub fn base(&self) -> u64
        ensures { result ≡ self.now.segment.base }
    {
        self.segment.base
    }

    /// The bytes from this place on, at most as many as a page has.
    pub fn page(&self, place: usize) -> &[u8]
        requires { place ≤ length self.now.bytes }
        ensures { result.now ≡ take PAGE_BYTES (drop place self.now.bytes) }
    {
        let rest = &self.bytes[place..];
        &rest[..rest.len().min(PAGE_BYTES as usize)]
    }

    pub fn byte(&self, place: usize) -> u8
        requires { place < length self.now.bytes }
        ensures { result ≡ slice_index self.now.bytes place }
    {
        self.bytes[place]
    }

    pub fn put(&mut self, place: usize, byte: u8)
        requires { place < length self.old.bytes }
        ensures { self.new ≡ record self.old { bytes = slice_set self.old.bytes place byte } }
    {
        self.bytes[place] = byte;
    }

    /// The two bytes from this place on, as a number.
    pub fn half(&self, place: usize) -> u16
        requires { place + 2 ≤ length self.now.bytes }
        ensures { result ≡ number_at self.now.bytes place 2 }
    {
        u16::from_le_bytes([self.bytes[place], self.bytes[place + 1]])
    }

    /// The four bytes from this place on, as a number.
    pub fn word(&self, place: usize) -> u32
        requires { place + 4 ≤ length self.now.bytes }
        ensures { result ≡ number_at self.now.bytes place 4 }
    {
        let bytes = &self.bytes;
        u32::from_le_bytes([
            bytes[place],
            bytes[place + 1],
            bytes[place + 2],
            bytes[place + 3],
        ])
    }

    /// The eight bytes from this place on, as a number.
    pub fn double(&self, place: usize) -> u64
        requires { place + 8 ≤ length self.now.bytes }
        ensures { result ≡ number_at self.now.bytes place 8 }
    {
        let bytes = &self.bytes;
        u64::from_le_bytes([
            bytes[place],
            bytes[place + 1],
            bytes[place + 2],
            bytes[place + 3],
            bytes[place + 4],
            bytes[place + 5],
            bytes[place + 6],
            bytes[place + 7],
        ])
    }

    /// As many bytes as `width` says, from this place on, as a number.
    pub fn number(&self, place: usize, width: u8) -> u64
        requires width { IsWidth width }
        requires inside { place + width ≤ length self.now.bytes }
        ensures value { result ≡ number_at self.now.bytes place width }
        ensures fits { result < 256 ^ width }
    {
        match width {
            1 => u64::from(self.byte(place)),
            2 => u64::from(self.half(place)),
            4 => u64::from(self.word(place)),
            8 => self.double(place),
            _ => unreachable!(),
        }
    }

    /// Writes the lowest bytes of the number, as many as `width` says, from this place on.
    pub fn put_number(&mut self, place: usize, width: u8, value: u64)
        requires { place + width ≤ length self.old.bytes }
        ensures { self.new ≡ record self.old { bytes = with_number self.old.bytes place width value } }
    {
        let bytes = self.bytes.as_mut_slice();
        match width {
            8 => put_bytes(bytes, place, 8, value),
            4 => put_bytes(bytes, place, 4, value),
            _ => put_bytes(bytes, place, width, value),
        }
    }

    /// Writes a text from this place on.
    pub fn put_text(&mut self, place: usize, text: &[u8])
        requires { place + length text.now ≤ length self.old.bytes }
        ensures { self.new ≡ record self.old { bytes = with_text self.old.bytes place text.now (length text.now) } }
    {
        for (k, byte) in text.iter().enumerate() {
            self.bytes[place + k] = *byte;
        }
    }
}

/// Writes the lowest bytes of the number from this place on. Where it is known how many they are, the compiler makes one
/// store of the loop.
fn put_bytes(bytes: &mut [u8], place: usize, width: u8, value: u64)
    requires { place + width ≤ length bytes.old }
    ensures { bytes.new ≡ with_number bytes.old place width value }
{
    let mut rest = value;
    for k in 0..width {
        bytes[place + usize::from(k)] = (rest % 256) as u8;
        rest /= 256;
    }
}
