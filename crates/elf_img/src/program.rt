//! The program headers of a file.

ghost use Rattle.std.specs.Prelude.{◌≡◌, ◌+◌, ◌<◌, ◌≤◌, true, length, IfOk, OnOk};
ghost use Rattle.std.specs.List.{filter, list_any, list_all};
ghost use Rattle.elf_img.specs.Causes.{Passes};
ghost use Rattle.elf_img.specs.Header.{has_programs};
ghost use Rattle.elf_img.specs.Segments.{program_header_at, program_headers, program_causes, loads, is_load, is_dynamic, is_executable, is_writable, is_write_exec, has_bounds, kind_of};

use crate::bytes::{double_at, is_inside, word_at};
use crate::fault::{ElfFault, ElfWhy};
use crate::header::{program_count, program_offset};
use mach_base::{Kind, OutOfMemory};
use std::alloc::Global;

/// A program header: its type and flags, where in the file its bytes are, where in memory they go, and how many bytes it
/// has in the file and in memory.
#[derive(Clone, Copy, Debug, PartialEq, Eq)]
pub struct ProgramHeader {
    pub kind: u64,
    pub flags: u64,
    pub offset: u64,
    pub address: u64,
    pub file_size: u64,
    pub memory_size: u64,
}

/// The program headers of a file, in order.
pub fn program_headers(alloc: Global, file: &[u8]) -> Result<Vec<ProgramHeader>, OutOfMemory>
    requires long { 64 ≤ length file.now }
    requires whole { has_programs file.now ≡ true }
    ensures { IfOk result (λ headers. headers.items ≡ program_headers file.now) }
{
    let offset = program_offset(file);
    let headers = (0..program_count(file))
        .map(|i| program_header_at(file, (offset + 56 * i) as usize))
        .collect(alloc)?;
    Ok(headers)
}

fn program_header_at(file: &[u8], at: usize) -> ProgramHeader
    requires { at + 56 ≤ length file.now }
    ensures { result ≡ program_header_at file.now at }
{
    ProgramHeader {
        kind: word_at(file, at),
        flags: word_at(file, at + 4),
        offset: double_at(file, at + 8),
        address: double_at(file, at + 16),
        file_size: double_at(file, at + 32),
        memory_size: double_at(file, at + 40),
    }
}

/// The program headers of a file's loads, each with its bounds.
pub fn read_loads(alloc: Global, file: &[u8]) -> Result<Vec<ProgramHeader>, ElfFault>
    requires long { 64 ≤ length file.now }
    requires whole { has_programs file.now ≡ true }
    ensures passes { Passes result (program_causes (length file.now) (program_headers file.now)) }
    ensures items { IfOk result (λ found. found.items ≡ loads file.now) }
    ensures bounds { IfOk result (λ found. list_all (has_bounds (length file.now)) found.items ≡ true) }
{
    let headers = program_headers(alloc, file)?;
    let found = loads(alloc, headers.as_slice())?;
    check_headers(file.len() as u64, headers.as_slice(), found.as_slice())?;
    Ok(found)
}

/// Refuses a program header that is wrong by itself, in a file of this length.
#[tactic(auto, unfolding(crate::specs::Segments::program_causes))]
fn check_headers(
    len: u64,
    headers: &[ProgramHeader],
    loads: &[ProgramHeader],
) -> Result<(), ElfFault>
    requires { loads.now ≡ filter is_load headers.now }
    ensures passes { Passes result (program_causes len headers.now) }
    ensures bounds { OnOk result (list_all (has_bounds len) loads.now ≡ true) }
{
    if have_dynamic(headers) {
        return Err(ElfFault::Bad(ElfWhy::Dynamic));
    }
    if !have_bounds(len, loads) {
        return Err(ElfFault::Bad(ElfWhy::Bounds));
    }
    if have_write_exec(loads) {
        return Err(ElfFault::Bad(ElfWhy::WriteExec));
    }
    Ok(())
}

fn have_dynamic(headers: &[ProgramHeader]) -> bool
    ensures { result ≡ list_any is_dynamic headers.now }
{
    headers.iter().any(|h| is_dynamic(*h))
}

fn have_bounds(len: u64, headers: &[ProgramHeader]) -> bool
    ensures { result ≡ list_all (has_bounds len) headers.now }
{
    headers.iter().all(|h| has_bounds(len, *h))
}

fn have_write_exec(headers: &[ProgramHeader]) -> bool
    ensures { result ≡ list_any is_write_exec headers.now }
{
    headers.iter().any(|h| is_write_exec(*h))
}

/// Those of the program headers that are loaded.
fn loads(alloc: Global, headers: &[ProgramHeader]) -> Result<Vec<ProgramHeader>, OutOfMemory>
    ensures { IfOk result (λ loads. loads.items ≡ filter is_load headers.now) }
{
    let loads = headers
        .iter()
        .filter(|h| is_load(**h))
        .copied()
        .collect(alloc)?;
    Ok(loads)
}

fn is_load(h: ProgramHeader) -> bool
    ensures { result ≡ is_load h }
{
    h.kind == 1 && h.memory_size > 0
}

/// Whether the program wants a dynamic linker.
fn is_dynamic(h: ProgramHeader) -> bool
    ensures { result ≡ is_dynamic h }
{
    h.kind == 2 || h.kind == 3
}

fn is_executable(h: ProgramHeader) -> bool
    ensures { result ≡ is_executable h }
{
    h.flags % 2 == 1
}

fn is_writable(h: ProgramHeader) -> bool
    ensures { result ≡ is_writable h }
{
    h.flags / 2 % 2 == 1
}

fn is_write_exec(h: ProgramHeader) -> bool
    ensures { result ≡ is_write_exec h }
{
    is_executable(h) && is_writable(h)
}

/// The highest address at which the memory of a segment may end.
const HIGHEST_END: u64 = 0x7fff_ffff_ffff_fff8;

/// Whether a load has its bytes in a file of this length, and its memory within the lower half of the addresses.
fn has_bounds(len: u64, h: ProgramHeader) -> bool
    ensures { result ≡ has_bounds len h }
{
    is_inside(len, h.offset, h.file_size)
        && h.file_size <= h.memory_size
        && h.address <= HIGHEST_END
        && h.memory_size <= HIGHEST_END - h.address
}

/// What may be done in the segment.
pub fn kind_of(h: ProgramHeader) -> Kind
    ensures { result ≡ kind_of h }
{
    if is_executable(h) {
        Kind::Text
    } else if is_writable(h) {
        Kind::Data
    } else {
        Kind::Rodata
    }
}
