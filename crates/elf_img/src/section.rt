//! The section headers of a file, and the two tables from which symbols are read.

ghost use Rattle.std.specs.Prelude.{◌≡◌, ◌+◌, ◌≤◌, true, length, find, IfOk};
ghost use Rattle.std.specs.Option.{option_copied};
ghost use Rattle.elf_img.specs.Header.{has_sections};
ghost use Rattle.elf_img.specs.Sections.{section_header_at, section_headers, is_symbol_table, contents, table_of, table_in};

use crate::bytes::{double_at, is_inside, range_at, word_at};
use crate::header::{section_count, section_offset};
use crate::table::SymbolTable;
use mach_base::OutOfMemory;
use std::alloc::Global;

/// A section header: its type, where in the file the section is, its size in bytes, and the number of another section.
#[derive(Clone, Copy, Debug, PartialEq, Eq)]
pub struct SectionHeader {
    pub kind: u64,
    pub offset: u64,
    pub size: u64,
    pub link: u64,
}

/// The section headers of a file, in order.
pub fn section_headers(alloc: Global, file: &[u8]) -> Result<Vec<SectionHeader>, OutOfMemory>
    requires long { 64 ≤ length file.now }
    requires whole { has_sections file.now ≡ true }
    ensures { IfOk result (λ headers. headers.items ≡ section_headers file.now) }
{
    let offset = section_offset(file);
    let headers = (0..section_count(file))
        .map(|i| section_header_at(file, (offset + 64 * i) as usize))
        .collect(alloc)?;
    Ok(headers)
}

fn section_header_at(file: &[u8], at: usize) -> SectionHeader
    requires { at + 64 ≤ length file.now }
    ensures { result ≡ section_header_at file.now at }
{
    SectionHeader {
        kind: word_at(file, at + 4),
        offset: double_at(file, at + 24),
        size: double_at(file, at + 32),
        link: word_at(file, at + 40),
    }
}

/// The first symbol table with its names, if both lie inside the file.
pub fn table_in<'a>(file: &'a [u8], headers: &[SectionHeader]) -> Option<SymbolTable<'a>>
    ensures { result ≡ table_in file.now headers.now }
{
    match first_table(headers) {
        Some(header) => table_of(file, headers, header),
        None => None,
    }
}

/// The header of the first symbol table.
fn first_table(headers: &[SectionHeader]) -> Option<SectionHeader>
    ensures { result ≡ find is_symbol_table headers.now }
{
    for h in headers {
        if is_symbol_table(*h) {
            return Some(*h);
        }
    }
    None
}

fn is_symbol_table(h: SectionHeader) -> bool
    ensures { result ≡ is_symbol_table h }
{
    h.kind == 2
}

/// The symbol table of a section with its names, if both lie inside the file.
fn table_of<'a>(
    file: &'a [u8],
    headers: &[SectionHeader],
    header: SectionHeader,
) -> Option<SymbolTable<'a>>
    ensures { result ≡ table_of file.now headers.now header }
{
    let entries = contents(file, header)?;
    let of_names = headers.get(header.link as usize).copied()?;
    let names = contents(file, of_names)?;
    Some(SymbolTable { entries, names })
}

/// The bytes of a section that lies inside the file.
fn contents(file: &[u8], h: SectionHeader) -> Option<&[u8]>
    ensures { option_copied result ≡ contents file.now h }
{
    if !is_inside(file.len() as u64, h.offset, h.size) {
        return None;
    }
    Some(range_at(file, h.offset, h.size))
}
