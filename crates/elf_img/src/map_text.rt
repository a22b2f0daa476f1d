//! Symbols as the lines of a map.

ghost use Rattle.std.specs.Prelude.{◌≡◌, ◌++◌, OnOk};
ghost use Rattle.elf_img.specs.MapText.{letter_of, symbol_line};

use crate::symbol::MapSymbol;
use mach_base::{OutOfMemory, push_hex};

/// Appends the line of a symbol.
#[tactic(auto, unfolding(crate::specs::MapText::symbol_line))]
pub fn push_symbol(out: &mut Vec<u8>, symbol: &MapSymbol<'_>) -> Result<(), OutOfMemory>
    ensures { OnOk result (out.new.items ≡ out.old.items ++ symbol_line symbol.now) }
{
    push_hex(out, symbol.address, 16)?;
    out.extend_from_slice(&[b' ', letter_of(symbol.is_function), b' '])?;
    out.extend_from_slice(symbol.name)?;
    out.push(b'\n')?;
    Ok(())
}

fn letter_of(is_function: bool) -> u8
    ensures { result ≡ letter_of is_function }
{
    if is_function { b'T' } else { b'D' }
}
