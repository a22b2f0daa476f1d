//! The lines of a map file, one after the other.

ghost use Rattle.std.specs.Prelude.{◌≡◌, ◌++◌, [], MatchResult, OnOk};
ghost use Rattle.std.specs.List.{cons_option};
ghost use Rattle.mach_base.specs.Lines.{lines_of};
ghost use Rattle.sym_map.specs.Reading.{IsFault, read_lines, symbols_of};

use crate::MapFault;
use crate::found::Found;
use crate::line::line_of;
use crate::symbol::Symbol;
use mach_base::{MOST_SYMBOLS, OutOfMemory, What, next_line};
use std::alloc::Global;

/// The symbols of a map file, in the order of its lines.
pub fn read_symbols(alloc: Global, text: &[u8]) -> Result<Vec<Symbol>, MapFault>
    ensures { MatchResult result (λ symbols. symbols_of text.now ≡ Ok symbols.items) (λ fault. IsFault fault (symbols_of text.now)) }
{
    let symbols = read_lines(alloc, text)?;
    if symbols.len() > MOST_SYMBOLS {
        let what = What::Symbols;
        let size = symbols.len() as u64;
        return Err(MapFault::TooLarge { what, size });
    }
    Ok(symbols)
}

/// The symbols of all lines, however many they are.
fn read_lines(alloc: Global, text: &[u8]) -> Result<Vec<Symbol>, MapFault>
    ensures { MatchResult result (λ symbols. read_lines 1 (lines_of text.now) ≡ Ok symbols.items) (λ fault. IsFault fault (read_lines 1 (lines_of text.now))) }
{
    let mut symbols = Vec::new(alloc);
    let mut number = 1;
    let mut left = text;
    while let Some((line, rest)) = next_line(left) {
        let found = line_of(number, line)?;
        keep(alloc, &mut symbols, found)?;
        number += 1;
        left = rest;
    }
    Ok(symbols)
}

/// Appends a symbol, if there is one, with a copy of its name.
fn keep(
    alloc: Global,
    symbols: &mut Vec<Symbol>,
    found: Option<Found<'_>>,
) -> Result<(), OutOfMemory>
    ensures { OnOk result (symbols.new.items ≡ symbols.old.items ++ cons_option found.entry []) }
{
    let Some(found) = found else {
        return Ok(());
    };
    let name = Vec::from_slice(alloc, found.name)?;
    let addr = found.addr;
    symbols.push(Symbol { addr, name })?;
    Ok(())
}
