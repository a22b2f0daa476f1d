//! The symbols of a symbol table, and the map that they make.

ghost use Rattle.std.specs.Prelude.{◌≡◌, ◌+◌, ◌*◌, ◌/◌, ◌^◌, ◌<◌, ◌≤◌, ◌==◌, ◌++◌, [], length, map, true, take, drop, position, IfOk, OnOk, IfSome};
ghost use Rattle.std.specs.List.{list_all, AllByRecursion};
ghost use Rattle.std.specs.Option.{option_copied, option_to_list};
ghost use Rattle.mach_base.specs.declared.limits.TheConstants.{ELF_BYTES};
ghost use Rattle.elf_img.specs.Causes.{Passes};
ghost use Rattle.elf_img.specs.Header.{has_sections};
ghost use Rattle.sym_map.specs.Reading.{symbols_of};
ghost use Rattle.elf_img.specs.MapText.{IsMapSymbol, map_text, named};
ghost use Rattle.elf_img.specs.Symbols.{up_to_zero, name_at, is_graphic, is_made_up, is_listed_name, symbol_kind, is_listed, symbol_at, symbols_before, symbols, symbol_causes};

use crate::bytes::{double_at, half_at, word_at};
use crate::fault::ElfFault;
use crate::map_text::push_symbol;
use crate::section::{section_headers, table_in};
use crate::symbol::MapSymbol;
use crate::table::SymbolTable;
use mach_base::{MAP_BYTES, MOST_SYMBOLS, OutOfMemory, Text, What};
use std::alloc::Global;

/// The bytes of an entry of a symbol table.
const ENTRY_SIZE: usize = 24;

/// The bytes in which a name has to end: the longest name, and the 0 after it.
const NAME_RANGE: usize = 256;

/// The symbols of a table, counted, and the bytes of their lines.
#[derive(Clone, Copy, Debug)]
struct Sizes {
    symbols: u64,
    bytes: u64,
}

/// The map of a file's symbols.
#[tactic(auto, unfolding(crate::specs::MapText::map_text, crate::specs::Symbols::symbol_causes))]
pub fn read_map(alloc: Global, file: &[u8]) -> Result<Text, ElfFault>
    requires long { 64 ≤ length file.now }
    requires short { length file.now ≤ ELF_BYTES }
    requires whole { has_sections file.now ≡ true }
    ensures passes { Passes result (symbol_causes (symbols file.now)) }
    ensures text { IfOk result (λ text. text ≡ map_text (symbols file.now)) }
    ensures reads { IfOk result (λ text. symbols_of text ≡ Ok (map named (symbols file.now))) }
{
    let headers = section_headers(alloc, file)?;
    let Some(table) = table_in(file, headers.as_slice()) else {
        return Ok(no_map(alloc));
    };
    let text = map_of(alloc, &table)?;
    Ok(text)
}

/// The map of no symbols.
#[tactic(auto, using(crate::proofs::ReadBack::nothing_reads))]
fn no_map(alloc: Global) -> Text
    ensures text { result ≡ [] }
    ensures reads { symbols_of result ≡ Ok [] }
{
    Text::from_vec(Vec::new(alloc))
}

/// The map of a table's symbols.
#[tactic(auto, unfolding(crate::specs::Symbols::symbol_causes))]
fn map_of(alloc: Global, table: &SymbolTable<'_>) -> Result<Text, ElfFault>
    requires short { length table.now.entries ≤ ELF_BYTES }
    ensures passes { Passes result (symbol_causes (symbols_before table.now (length table.now.entries / 24))) }
    ensures text { IfOk result (λ text. text ≡ map_text (symbols_before table.now (length table.now.entries / 24))) }
    ensures reads { IfOk result (λ text. symbols_of text ≡ Ok (map named (symbols_before table.now (length table.now.entries / 24)))) }
{
    let sizes = sizes_of(table);
    if sizes.symbols > MOST_SYMBOLS as u64 {
        let what = What::Symbols;
        let size = sizes.symbols;
        return Err(ElfFault::TooLarge { what, size });
    }
    if sizes.bytes > MAP_BYTES as u64 {
        let what = What::MapBytes;
        let size = sizes.bytes;
        return Err(ElfFault::TooLarge { what, size });
    }
    let text = text_of(alloc, table, sizes.bytes as usize)?;
    Ok(text)
}

/// Counts a table's symbols and the bytes of their lines, so that a map that is too long takes no memory.
#[tactic(auto, unfolding(crate::specs::Symbols::symbols_before, crate::specs::MapText::map_text))]
fn sizes_of(table: &SymbolTable<'_>) -> Sizes
    requires { length table.now.entries ≤ ELF_BYTES }
    ensures symbols { result.symbols ≡ length (symbols_before table.now (length table.now.entries / 24)) }
    ensures bytes { result.bytes ≡ length (map_text (symbols_before table.now (length table.now.entries / 24))) }
{
    let mut sizes = Sizes {
        symbols: 0,
        bytes: 0,
    };
    for i in 0..entry_count(table) {
        sizes = counted(table, i, sizes);
    }
    sizes
}

/// How many entries the table has; bytes after its last whole entry mean nothing.
fn entry_count(table: &SymbolTable<'_>) -> usize
    ensures { result ≡ length table.now.entries / 24 }
{
    table.entries.len() / ENTRY_SIZE
}

/// The sizes with those of the symbol of one entry more.
#[tactic(auto, unfolding(crate::specs::MapText::map_text), using(crate::proofs::Lines::line_size))]
fn counted(table: &SymbolTable<'_>, i: usize, sizes: Sizes) -> Sizes
    requires within { 24 * i + 24 ≤ length table.now.entries }
    requires few { sizes.symbols < 2 ^ 32 }
    requires small { sizes.bytes < 2 ^ 48 }
    ensures symbols { result.symbols ≡ sizes.symbols + length (option_to_list (symbol_at table.now i)) }
    ensures bytes { result.bytes ≡ sizes.bytes + length (map_text (option_to_list (symbol_at table.now i))) }
    ensures few { result.symbols ≤ sizes.symbols + 1 }
    ensures small { result.bytes ≤ sizes.bytes + 275 }
{
    match symbol_at(table, i) {
        Some(symbol) => Sizes {
            symbols: sizes.symbols + 1,
            bytes: sizes.bytes + 20 + symbol.name.len() as u64,
        },
        None => sizes,
    }
}

/// The lines of a table's symbols.
#[tactic(auto, unfolding(crate::specs::Symbols::symbols_before, crate::specs::MapText::map_text))]
fn text_of(alloc: Global, table: &SymbolTable<'_>, size: usize) -> Result<Text, OutOfMemory>
    ensures text { IfOk result (λ text. text ≡ map_text (symbols_before table.now (length table.now.entries / 24))) }
    ensures keep { OnOk result (AllByRecursion IsMapSymbol (symbols_before table.now (length table.now.entries / 24))) }
{
    let mut out = Vec::with_capacity(alloc, size)?;
    for i in 0..entry_count(table) {
        push_entry(&mut out, table, i)?;
    }
    Ok(Text::from_vec(out))
}

/// Appends the line of the symbol of an entry, if it goes into the map.
#[tactic(auto, using(crate::proofs::Lines::no_line, crate::proofs::Lines::one_line))]
fn push_entry(out: &mut Vec<u8>, table: &SymbolTable<'_>, i: usize) -> Result<(), OutOfMemory>
    requires { 24 * i + 24 ≤ length table.now.entries }
    ensures text { OnOk result (out.new.items ≡ out.old.items ++ map_text (option_to_list (symbol_at table.now i))) }
    ensures keep { OnOk result (AllByRecursion IsMapSymbol (option_to_list (symbol_at table.now i))) }
{
    match symbol_at(table, i) {
        Some(symbol) => push_symbol(out, &symbol)?,
        None => {}
    }
    Ok(())
}

/// The symbol of an entry of the table, if it goes into the map.
#[tactic(auto, using(crate::proofs::Lines::listed_word, crate::proofs::Lines::listed_some))]
fn symbol_at<'a>(table: &SymbolTable<'a>, i: usize) -> Option<MapSymbol<'a>>
    requires { 24 * i + 24 ≤ length table.now.entries }
    ensures value { result ≡ symbol_at table.now i }
    ensures keeps { IfSome result IsMapSymbol }
    ensures short { IfSome result (λ s. length s.name ≤ 255) }
{
    let (entries, at) = (table.entries, ENTRY_SIZE * i);
    let name = name_at(table.names, word_at(entries, at))?;
    if !(is_listed(entries, at) && is_listed_name(name)) {
        return None;
    }
    Some(MapSymbol {
        address: double_at(entries, at + 8),
        is_function: symbol_kind(entries, at) == 2,
        name,
    })
}

/// The name at an offset of the names, if it ends there.
fn name_at(names: &[u8], offset: u64) -> Option<&[u8]>
    ensures value { option_copied result ≡ name_at names.now offset }
    ensures short { IfSome result (λ name. length name.now ≤ 255) }
{
    up_to_zero(name_range(names, offset))
}

/// The bytes in which a name at an offset has to end.
#[tactic(auto, using(std::proofs::lemmas::List::drop_all))]
fn name_range(names: &[u8], offset: u64) -> &[u8]
    ensures value { result.now ≡ take 256 (drop offset names.now) }
    ensures short { length result.now ≤ 256 }
{
    if offset >= names.len() as u64 {
        return &names[..0];
    }
    first_bytes(&names[offset as usize..])
}

/// So many bytes as a name has to end in, or all if there are fewer.
#[tactic(auto, using(std::proofs::lemmas::List::take_all))]
fn first_bytes(bytes: &[u8]) -> &[u8]
    ensures value { result.now ≡ take 256 bytes.now }
    ensures short { length result.now ≤ 256 }
{
    if bytes.len() <= NAME_RANGE {
        return bytes;
    }
    &bytes[..NAME_RANGE]
}

/// The bytes up to the first 0, if one is there.
fn up_to_zero(bytes: &[u8]) -> Option<&[u8]>
    ensures value { option_copied result ≡ up_to_zero bytes.now }
    ensures short { IfSome result (λ front. length front.now < length bytes.now) }
{
    match first_zero(bytes) {
        Some(end) => Some(&bytes[..end]),
        None => None,
    }
}

/// Where the first 0 stands.
fn first_zero(bytes: &[u8]) -> Option<usize>
    ensures value { result ≡ position (λ b. b == 0) bytes.now }
    ensures within { IfSome result (λ end. end < length bytes.now) }
{
    bytes.iter().position(|b| *b == 0)
}

/// Whether the type of the symbol at an offset goes into the map, and it is defined.
fn is_listed(entries: &[u8], at: usize) -> bool
    requires { at + 24 ≤ length entries.now }
    ensures { result ≡ is_listed entries.now at }
{
    symbol_kind(entries, at) <= 2 && half_at(entries, at + 6) != 0
}

/// The type of the symbol at an offset.
fn symbol_kind(entries: &[u8], at: usize) -> u8
    requires { at + 24 ≤ length entries.now }
    ensures { result ≡ symbol_kind entries.now at }
{
    entries[at + 4] % 16
}

/// Whether a name goes into the map.
fn is_listed_name(name: &[u8]) -> bool
    ensures { result ≡ is_listed_name name.now }
{
    are_graphic(name) && !is_made_up(name)
}

fn are_graphic(name: &[u8]) -> bool
    ensures { result ≡ list_all is_graphic name.now }
{
    name.iter().all(|b| is_graphic(*b))
}

fn is_graphic(b: u8) -> bool
    ensures { result ≡ is_graphic b }
{
    b >= 0x21 && b <= 0x7e
}

/// Whether there is no name, or one that an assembler or a linker makes.
fn is_made_up(name: &[u8]) -> bool
    ensures { result ≡ is_made_up name.now }
{
    match name {
        [] => true,
        [b'$', ..] => true,
        [b'.', b'L', ..] => true,
        _ => false,
    }
}
