ghost use Rattle.std.specs.Prelude.{◌≡◌, ℕ, ◌<◌, ◌^◌, true, ◌≤◌, ◌↔◌, ◌≢◌, Some, None, false, IfOk, OnOk, OnErr, IsTrue, IsNone, MatchOption, MatchResult, length, is_ok, nat_le, replicate, slice_index, slice_set, ◌/◌, ◌+◌, ◌-◌, ◌%◌, ◌==◌, true};
ghost use Rattle.std.specs.Bool.{OnTrue, OnFalse};
ghost use Rattle.std.specs.Result.{result_err};
ghost use Rattle.std.specs.FinMap as map;
ghost use Rattle.mach_base.specs.Machine.{AreSegments, byte_at, holds, is_text_word, memory_of};
ghost use Rattle.mach_base.specs.Bytes.{IsWidth};
ghost use Rattle.mem_map.specs.Access.{allows, access_fault, fault_at, fetch_result, load_result, store_fault, after_store};
ghost use Rattle.mem_map.specs.Parts.{AreBegun, AreContents, AreParts, IsAllowedIn, IsFirstAt, NoneHolds, number_at, parts_of, segments_of, zero_memory};
ghost use Rattle.mem_map.specs.Pages.{ArePages, IsPage, IsSpot, KeepsUnmarked, first_pages, marked_at, page_base, page_length, page_of, page_total, unmarked, with_text};
ghost use Rattle.mem_map.specs.declared.rights.Access.TheVariants.{Fetch};

use crate::pages::{Layout, PAGE_BYTES, Page, count_up_to, lay_out};
use crate::piece::Piece;
use crate::rights::{Access, is_allowed};
use mach_base::{Cause, Fault, OutOfMemory, Peek, Segment, Text};
use std::alloc::Global;
use std::marker::Model;

/// Memory: segments in order, each with its bytes, which are cut into pages.
#[derive(Debug, Drop)]
pub struct Map {
    pieces: Vec<Piece>,
    /// The first page of each piece.
    firsts: Vec<usize>,
    /// Whether each page is marked as changed.
    changed: Vec<bool>,
}

impl Model for Map {
    ghost use Rattle.mach_base.specs.Machine.{memory_of};
    ghost use Rattle.mem_map.specs.Pages.{IsMap, PagedMemory, paged_code};

    ghost Value = { PagedMemory };

    ghost coded = { paged_code };

    ghost view = { λ m. record { memory = memory_of m.pieces.items; changed = m.changed.items } };

    ghost invariant = { λ m. IsMap m.pieces.items m.firsts.items m.changed.items };
}

/// The place of the piece that holds the address. Text is most often in the first one, and data in the second; the others
/// are searched by halves.
#[inline]
fn piece_at(pieces: &[Piece], addr: u64) -> Option<usize>
    requires { AreParts pieces.now }
    ensures { MatchOption result (NoneHolds pieces.now addr) (IsFirstAt pieces.now addr) }
{
    match pieces.first() {
        Some(piece) if piece.holds(addr) => Some(0),
        _ => later_piece_at(pieces, addr),
    }
}

#[inline]
fn later_piece_at(pieces: &[Piece], addr: u64) -> Option<usize>
    requires { AreParts pieces.now }
    ensures { MatchOption result (NoneHolds pieces.now addr) (IsFirstAt pieces.now addr) }
{
    if pieces.len() > 1 && pieces[1].holds(addr) {
        return Some(1);
    }
    found_piece_at(pieces, addr)
}

#[inline(never)]
fn found_piece_at(pieces: &[Piece], addr: u64) -> Option<usize>
    requires { AreParts pieces.now }
    ensures { MatchOption result (NoneHolds pieces.now addr) (IsFirstAt pieces.now addr) }
{
    let count = count_begun(pieces, addr);
    if count == 0 {
        return None;
    }
    if pieces[count - 1].holds(addr) {
        Some(count - 1)
    } else {
        None
    }
}

/// How many pieces begin at the address or below it.
fn count_begun(pieces: &[Piece], addr: u64) -> usize
    requires { AreParts pieces.now }
    ensures { AreBegun pieces.now addr result }
{
    pieces.partition_point(
        |piece: &Piece| -> bool
            ensures { result ≡ nat_le piece.now.segment.base addr }
        { piece.base() <= addr },
    )
}

/// Whether the address is a multiple of the width; one of a known width needs no division.
#[inline]
fn is_aligned(addr: u64, width: u8) -> bool
    requires { IsWidth width }
    ensures { result ≡ (addr % width == 0) }
{
    match width {
        8 => addr % 8 == 0,
        4 => addr % 4 == 0,
        2 => addr % 2 == 0,
        _ => true,
    }
}

/// The place of the piece that the access falls into, or the cause of its fault.
#[inline]
fn piece_or_cause(pieces: &[Piece], access: Access, addr: u64, width: u8) -> Result<usize, Cause>
    requires parts { AreParts pieces.now }
    requires width { IsWidth width }
    ensures { MatchResult result (IsAllowedIn pieces.now access addr width) (λ cause. access_fault (memory_of pieces.now) access addr width ≡ fault_at cause addr) }
{
    if !is_aligned(addr, width) {
        return Err(Cause::Misaligned);
    }
    match piece_at(pieces, addr) {
        None => Err(Cause::Unmapped),
        Some(i) => {
            if is_allowed(access, pieces[i].kind()) {
                Ok(i)
            } else {
                Err(Cause::NoRight)
            }
        }
    }
}

/// The place of the piece that the access falls into, or its fault.
#[inline]
fn allowed_piece(pieces: &[Piece], access: Access, addr: u64, width: u8) -> Result<usize, Fault>
    requires parts { AreParts pieces.now }
    requires width { IsWidth width }
    ensures { MatchResult result (IsAllowedIn pieces.now access addr width) (λ fault. access_fault (memory_of pieces.now) access addr width ≡ Some fault) }
{
    match piece_or_cause(pieces, access, addr, width) {
        Ok(i) => Ok(i),
        Err(cause) => Err(Fault { cause, addr }),
    }
}

/// Whether a whole word of the piece, which is text, is at the address.
#[inline]
fn has_word(piece: &Piece, addr: u64) -> bool
    ensures { result ≡ true → (addr % 4 ≡ 0) × (allows Fetch piece.now.segment.kind ≡ true) × (holds piece.now.segment addr ≡ true) }
{
    addr % 4 == 0 && is_allowed(Access::Fetch, piece.kind()) && piece.holds(addr)
}

/// Whether a whole word of text is at the address, in the first piece, as it most often is.
#[inline]
fn is_in_first(pieces: &[Piece], addr: u64) -> bool
    requires { AreParts pieces.now }
    ensures { result ≡ true → IsAllowedIn pieces.now Fetch addr 4 0 }
{
    !pieces.is_empty() && has_word(&pieces[0], addr)
}

/// The word at an address of a piece.
#[inline]
fn word_of(piece: &Piece, addr: u64) -> u32
    requires low { piece.now.segment.base ≤ addr }
    requires high { addr + 4 ≤ piece.now.segment.base + length piece.now.bytes }
    ensures { result ≡ number_at piece.now.bytes (addr - piece.now.segment.base) 4 }
{
    piece.word(piece.place(addr))
}

/// The piece that a page is in, and the place in it at which the page begins.
#[derive(Clone, Copy, Debug)]
struct Spot {
    piece: usize,
    place: usize,
}

/// Where a page is, which there is.
fn spot_of(pieces: &[Piece], firsts: &[usize], page: usize) -> Spot
    requires parts { AreParts pieces.now }
    requires firsts { firsts.now ≡ first_pages 0 (segments_of pieces.now) }
    requires page { page < page_total (segments_of pieces.now) }
    ensures { IsSpot pieces.now page result }
{
    let piece = count_up_to(firsts, page) - 1;
    Spot {
        piece,
        place: (page - firsts[piece]) * PAGE_BYTES as usize,
    }
}

/// The page of an address, by the piece that holds it.
fn page_at(pieces: &[Piece], firsts: &[usize], i: usize, addr: u64) -> usize
    requires parts { AreParts pieces.now }
    requires firsts { firsts.now ≡ first_pages 0 (segments_of pieces.now) }
    requires first { IsFirstAt pieces.now addr i }
    ensures page { result ≡ page_of (segments_of pieces.now) addr }
    ensures within { result < page_total (segments_of pieces.now) }
{
    firsts[i] + pieces[i].place(addr) / PAGE_BYTES as usize
}

impl Map {
    /// The memory of these segments, with all bytes 0.
    pub fn new(alloc: Global, segments: &[Segment]) -> Result<Map, OutOfMemory>
        requires { AreSegments segments.now }
        ensures { IfOk result (λ map. map ≡ unmarked (zero_memory segments.now)) }
    {
        let mut pieces = Vec::with_capacity(alloc, segments.len())?;
        for segment in segments {
            pieces.push(Piece::zeroed(alloc, *segment)?)?;
        }
        Map::with_pieces(alloc, segments, pieces)
    }

    /// The memory of these segments, with a copy of the contents of each.
    pub fn filled(
        alloc: Global,
        segments: &[Segment],
        contents: &[Text],
    ) -> Result<Map, OutOfMemory>
        requires segments { AreSegments segments.now }
        requires contents { AreContents segments.now contents.now }
        ensures { IfOk result (λ map. map ≡ unmarked (memory_of (parts_of segments.now contents.now))) }
    {
        let mut pieces = Vec::with_capacity(alloc, segments.len())?;
        for (i, segment) in segments.iter().enumerate() {
            pieces.push(Piece::filled(alloc, *segment, contents[i].as_bytes())?)?;
        }
        Map::with_pieces(alloc, segments, pieces)
    }

    /// The memory of these pieces, with no page marked.
    fn with_pieces(
        alloc: Global,
        segments: &[Segment],
        pieces: Vec<Piece>,
    ) -> Result<Map, OutOfMemory>
        requires parts { AreParts pieces.items }
        requires segments { segments_of pieces.items ≡ segments.now }
        ensures { IfOk result (λ map. map ≡ unmarked (memory_of pieces.items)) }
    {
        let Layout { firsts, count } = lay_out(alloc, segments)?;
        let changed = vec![in alloc; false; count]?;
        Ok(Map {
            pieces,
            firsts,
            changed,
        })
    }

    /// The word of 4 bytes at the address, in text.
    pub fn fetch(&self, addr: u64) -> Result<u32, Fault>
        ensures { result ≡ fetch_result self.now.memory addr }
    {
        let pieces = self.pieces.as_slice();
        if is_in_first(pieces, addr) {
            return Ok(word_of(&pieces[0], addr));
        }
        let i = allowed_piece(pieces, Access::Fetch, addr, 4)?;
        Ok(word_of(&pieces[i], addr))
    }

    /// The number of `width` bytes from the address on, in data or rodata, zero-extended. The width is 1, 2, 4 or 8.
    #[inline]
    pub fn load(&self, addr: u64, width: u8) -> Result<u64, Fault>
        requires { IsWidth width }
        ensures value { result ≡ load_result self.now.memory addr width }
        ensures fits { IfOk result (λ value. value < 256 ^ width) }
    {
        let pieces = self.pieces.as_slice();
        let i = allowed_piece(pieces, Access::Load, addr, width)?;
        let piece = &pieces[i];
        Ok(piece.number(piece.place(addr), width))
    }

    /// Writes the lowest `width` bytes of the number from the address on, in data. The width is 1, 2, 4 or 8. A fault
    /// changes nothing.
    #[inline]
    pub fn store(&mut self, addr: u64, width: u8, value: u64) -> Result<(), Fault>
        requires { IsWidth width }
        ensures fault { result_err result ≡ store_fault self.old.memory addr width }
        ensures stored { OnOk result (self.new ≡ record { memory = after_store self.old.memory addr width value; changed = marked_at self.old addr }) }
        ensures unchanged { OnErr result (self.new ≡ self.old) }
        ensures pages { KeepsUnmarked self.old self.new }
    {
        let i = allowed_piece(self.pieces.as_slice(), Access::Store, addr, width)?;
        let page = page_at(self.pieces.as_slice(), self.firsts.as_slice(), i, addr);
        let piece = &mut self.pieces[i];
        let place = piece.place(addr);
        piece.put_number(place, width, value);
        self.changed[page] = true;
        Ok(())
    }

    /// The fault that a store of this width would meet, if any. The width is 1, 2, 4 or 8.
    pub fn storable(&self, addr: u64, width: u8) -> Result<(), Fault>
        requires { IsWidth width }
        ensures { result_err result ≡ store_fault self.now.memory addr width }
    {
        let _place = allowed_piece(self.pieces.as_slice(), Access::Store, addr, width)?;
        Ok(())
    }

    /// The byte at an address, whatever its segment's kind; None exactly where it isn't mapped.
    pub fn peek(&self, addr: u64) -> Option<u8>
        ensures value { result ≡ byte_at self.now.memory addr }
        ensures mapped { 2 ^ 63 ≤ addr → IsNone result }
    {
        let pieces = self.pieces.as_slice();
        match piece_at(pieces, addr) {
            None => None,
            Some(i) => {
                let piece = &pieces[i];
                Some(piece.byte(piece.place(addr)))
            }
        }
    }

    /// Writes one byte, whatever its segment's kind. It answers false, and changes nothing, exactly where the address
    /// isn't mapped.
    pub fn poke(&mut self, addr: u64, byte: u8) -> bool
        ensures mapped { IsTrue result ↔ (byte_at self.old.memory addr ≢ None) }
        ensures written { OnTrue result (self.new ≡ record { memory = record self.old.memory { bytes = map.insert self.old.memory.bytes addr byte }; changed = marked_at self.old addr }) }
        ensures unmapped { OnFalse result (self.new ≡ self.old) }
        ensures high { 2 ^ 63 ≤ addr → result ≡ false }
        ensures pages { KeepsUnmarked self.old self.new }
    {
        match piece_at(self.pieces.as_slice(), addr) {
            None => false,
            Some(i) => {
                let page = page_at(self.pieces.as_slice(), self.firsts.as_slice(), i, addr);
                let piece = &mut self.pieces[i];
                let place = piece.place(addr);
                piece.put(place, byte);
                self.changed[page] = true;
                true
            }
        }
    }

    /// Whether the address is a multiple of 4 in a text segment. There, and only there, a fetch gives a word.
    pub fn is_text(&self, addr: u64) -> bool
        ensures value { result ≡ is_text_word self.now.memory addr }
        ensures fetches { result ≡ is_ok (fetch_result self.now.memory addr) }
    {
        allowed_piece(self.pieces.as_slice(), Access::Fetch, addr, 4).is_ok()
    }

    /// How many pages there are.
    pub fn page_count(&self) -> usize
        ensures count { result ≡ length self.now.changed }
        ensures pages { result ≡ page_total self.now.memory.segments }
    {
        self.changed.len()
    }

    /// The page with this number, counted from 0 over all segments in order; None exactly where it isn't below
    /// `page_count`.
    pub fn page(&self, number: usize) -> Option<Page<'_>>
        ensures { MatchOption result (length self.now.changed ≤ number) (IsPage self.now number) }
    {
        if number >= self.changed.len() {
            return None;
        }
        let spot = spot_of(self.pieces.as_slice(), self.firsts.as_slice(), number);
        let piece = &self.pieces[spot.piece];
        Some(Page {
            base: piece.base() + spot.place as u64,
            bytes: piece.page(spot.place),
            changed: self.changed[number],
        })
    }

    /// Takes all marks away; the bytes stay.
    pub fn settle(&mut self)
        ensures { self.new ≡ record self.old { changed = replicate (length self.old.changed) false } }
    {
        self.changed.as_mut_slice().fill(false);
    }

    /// Writes a whole page, which there is, whatever its segment's kind, and marks it; the text is as long as the page.
    pub fn put_page(&mut self, number: usize, text: &[u8])
        requires page { number < length self.old.changed }
        requires size { length text.now ≡ page_length self.old.memory.segments number }
        ensures written { self.new ≡ record { memory = with_text self.old.memory (page_base self.old.memory.segments number) text.now; changed = slice_set self.old.changed number true } }
        ensures pages { KeepsUnmarked self.old self.new }
    {
        let spot = spot_of(self.pieces.as_slice(), self.firsts.as_slice(), number);
        let piece = &mut self.pieces[spot.piece];
        piece.put_text(spot.place, text);
        self.changed[number] = true;
    }

    /// A whole word of text is at an address exactly where a fetch gives a word. The call does nothing; its contract says so
    /// to callers.
    pub fn text_is_fetched(&self)
        ensures { (addr : ℕ) → is_text_word self.now.memory addr ≡ is_ok (fetch_result self.now.memory addr) }
    {
        let _pieces = &self.pieces;
    }

    /// The segments keep their bounds, their order and the limits, whatever was done to the map: at most 64 segments
    /// and 16 MiB. The call does nothing; its contract says so to callers.
    pub fn keeps_limits(&self)
        ensures { AreSegments self.now.memory.segments }
    {
        let _pieces = &self.pieces;
    }

    /// Each mapped address is in exactly one page, all bytes of an aligned access are in the same page, and there is a mark
    /// for each page, whatever was done to the map. The call does nothing; its contract says so to callers.
    pub fn keeps_pages(&self)
        ensures pages { ArePages self.now.memory.segments }
        ensures marks { length self.now.changed ≡ page_total self.now.memory.segments }
    {
        let _pieces = &self.pieces;
    }
}

impl Peek for Map {
    ghost memory = { λ m. m.memory };

    ghost Rest = { Unit {0} };

    ghost rest = { λ _. tt };

    fn peek(&self, addr: u64) -> Option<u8> {
        Map::peek(self, addr)
    }

    fn poke(&mut self, addr: u64, byte: u8) -> bool {
        Map::poke(self, addr, byte)
    }

    fn is_text(&self, addr: u64) -> bool {
        Map::is_text(self, addr)
    }
}

#[cfg(test)]
mod tests;
