//! Reads and writes journals.

ghost use Rattle.std.specs.Prelude.{◌≡◌, ◌≤◌, ◌++◌, length, IfOk, MatchOption, MatchResult};
ghost use Rattle.std.specs.List.{AllByRecursion};
ghost use Rattle.jrn_text.specs.Entries.{is_entry, IsEntry, entry_line, lines_text};
ghost use Rattle.jrn_text.specs.Journal.{journal_text, header_text, is_header, IsHeader, IsJournal, IsRead, HasNoHeader, HasNoEntry, Explains, ExplainsLines};

use crate::JournalFault;
use crate::loose::{entry_meant, numbers_meant};
use crate::spelled::{push_entry, push_header};
use mach_base::{
    Ending, Entry, Hart, MOST_ENTRIES, MOST_HARTS, MOST_STEPS, OutOfMemory, PLACES, Packed, What,
};
use std::alloc::Global;

/// A journal: the number of harts, 1 to 16, the limit of steps, 1 to 4,000,000, and the entries in order.
#[derive(Debug, Drop)]
pub struct Journal {
    pub harts: u8,
    pub limit: u64,
    pub entries: Packed,
}

/// A first line that was read, and what follows it.
#[derive(Clone, Copy)]
struct Header<'a> {
    harts: u8,
    limit: u64,
    rest: &'a [u8],
}

/// An entry's line that was read, and what follows it.
#[derive(Clone, Copy)]
struct Read<'a> {
    entry: Entry,
    rest: &'a [u8],
}

/// The text of a journal.
pub fn write_journal(
    alloc: Global,
    harts: u8,
    limit: u64,
    entries: &Packed,
) -> Result<Vec<u8>, OutOfMemory>
    requires { IsJournal harts limit entries.now.entries }
    ensures { IfOk result (λ text. text.items ≡ journal_text harts limit entries.now.entries) }
{
    let mut out = Vec::new(alloc);
    push_header(&mut out, harts, limit)?;
    for entry in entries.iter() {
        push_entry(&mut out, entry)?;
    }
    Ok(out)
}

/// Reads a journal. It is the one whose text this is. `Bad` names the first line that is neither the first line of a
/// journal nor an entry's, also where the last line lacks its line feed; `TooLarge` comes where all lines are right and
/// the entries are more than 8,000,000.
#[tactic(auto, using(crate::proofs::Meaning::few_harts, crate::proofs::Lines::whole_text))]
pub fn read_journal(alloc: Global, text: &[u8]) -> Result<Journal, JournalFault>
    ensures { MatchResult result (λ j. IsRead text.now j.harts j.limit j.entries.entries) (Explains text.now) }
{
    let mut scratch = Vec::new(alloc);
    let Some(header) = first_line(&mut scratch, text)? else {
        return Err(JournalFault::Bad { line: 1 });
    };
    let entries = read_entries(alloc, header.harts, header.rest)?;
    if entries.len() > MOST_ENTRIES {
        return Err(JournalFault::TooLarge {
            what: What::Entries,
            size: entries.len(),
        });
    }
    Ok(Journal {
        harts: header.harts,
        limit: header.limit,
        entries,
    })
}

/// Reads the first line of a journal; None exactly where the text begins with none.
fn first_line<'a>(scratch: &mut Vec<u8>, text: &'a [u8]) -> Result<Option<Header<'a>>, OutOfMemory>
    ensures { IfOk result (λ found. MatchOption found (HasNoHeader text.now) (λ h. IsHeader h.harts h.limit × (text.now ≡ header_text h.harts h.limit ++ h.rest.now))) }
{
    let Some((harts, limit)) = numbers_meant(text) else {
        return Ok(None);
    };
    if !is_header(harts, limit) {
        return Ok(None);
    }
    scratch.clear();
    push_header(scratch, harts, limit)?;
    match text.strip_prefix(scratch.as_slice()) {
        Some(rest) => Ok(Some(Header { harts, limit, rest })),
        None => Ok(None),
    }
}

/// Whether these are the numbers of a first line.
fn is_header(harts: u8, limit: u64) -> bool
    ensures { result ≡ is_header harts limit }
{
    1 <= harts && harts <= MOST_HARTS && 1 <= limit && limit <= MOST_STEPS
}

/// Reads the lines of entries to their end.
#[tactic(auto, using(crate::proofs::Meaning::packable))]
fn read_entries(alloc: Global, harts: u8, text: &[u8]) -> Result<Packed, JournalFault>
    requires { harts ≤ MOST_HARTS }
    ensures { MatchResult result (λ p. AllByRecursion (IsEntry harts) p.entries × (text.now ≡ lines_text p.entries)) (ExplainsLines harts text.now) }
{
    let mut entries = Packed::with_room(alloc, 0)?;
    let mut scratch = Vec::new(alloc);
    let mut rest = text;
    while !rest.is_empty() {
        let Some(read) = next_entry(&mut scratch, harts, rest)? else {
            return Err(JournalFault::Bad {
                line: entries.len() + 2,
            });
        };
        entries.try_push(read.entry)?;
        rest = read.rest;
    }
    Ok(entries)
}

/// Reads an entry's line; None exactly where the text begins with none.
fn next_entry<'a>(
    scratch: &mut Vec<u8>,
    harts: u8,
    text: &'a [u8],
) -> Result<Option<Read<'a>>, OutOfMemory>
    requires { harts ≤ MOST_HARTS }
    ensures { IfOk result (λ found. MatchOption found (HasNoEntry harts text.now) (λ read. IsEntry harts read.entry × (text.now ≡ entry_line read.entry ++ read.rest.now))) }
{
    let Some(entry) = entry_meant(text) else {
        return Ok(None);
    };
    if !is_entry(harts, entry) {
        return Ok(None);
    }
    scratch.clear();
    push_entry(scratch, entry)?;
    match text.strip_prefix(scratch.as_slice()) {
        Some(rest) => Ok(Some(Read { entry, rest })),
        None => Ok(None),
    }
}

/// Whether it is an entry of a journal of so many harts.
fn is_entry(harts: u8, entry: Entry) -> bool
    requires { harts ≤ MOST_HARTS }
    ensures { result ≡ is_entry harts entry }
{
    match entry {
        Entry::Step(Hart(h))
        | Entry::Intr(Hart(h))
        | Entry::Send(Hart(h))
        | Entry::Take(Hart(h))
        | Entry::Line(Hart(h))
        | Entry::Close(Hart(h)) => h < harts,
        Entry::Open(Hart(h), late) => h < harts && late < 1 << harts,
        Entry::Pull(place) | Entry::Plant(place) => place < PLACES,
        Entry::PlantStep(_) | Entry::PullStep => true,
        Entry::Off(ending) => ending != Ending::PlanEnd,
    }
}
