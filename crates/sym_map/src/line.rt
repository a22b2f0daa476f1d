//! One line of a map file: the symbol that it names.

ghost use Rattle.std.specs.Prelude.{◌≡◌};
ghost use Rattle.mach_base.specs.Number.{has_prefix};
ghost use Rattle.mach_base.specs.Lines.{words_of};
ghost use Rattle.sym_map.specs.Reading.{is_undefined, address_of, symbol_of, line_of, after_first};

use crate::MapFault;
use crate::found::Found;
use mach_base::{SYMBOL_BYTES, next_word, parse_number};

/// The most bytes of an address's digits.
const DIGIT_LIMIT: usize = 16;

/// The symbol of the line of this number; None for a line that is skipped.
#[tactic(auto, unfolding(crate::specs::Reading::line_of))]
pub fn line_of(number: u64, line: &[u8]) -> Result<Option<Found<'_>>, MapFault>
    ensures { result ≡ line_of number (words_of line.now) }
{
    let Some((word, rest)) = next_word(line) else {
        return Ok(None);
    };
    if word[0] == b'#' {
        return Ok(None);
    }
    after_first(number, word, rest)
}

/// What the line gives by its first word and what comes after it.
fn after_first<'a>(number: u64, word: &[u8], line: &'a [u8]) -> Result<Option<Found<'a>>, MapFault>
    ensures { result ≡ after_first number word.now (words_of line.now) }
{
    let bad = MapFault::Bad { line: number };
    let Some((kind, rest)) = next_word(line) else {
        return Err(bad);
    };
    let Some((name, rest)) = next_word(rest) else {
        return if is_undefined(word) {
            Ok(None)
        } else {
            Err(bad)
        };
    };
    if let Some((_, rest)) = next_word(rest) {
        if next_word(rest).is_some() {
            return Err(bad);
        }
    }
    match symbol_of(word, kind, name) {
        Some(found) => Ok(Some(found)),
        None => Err(bad),
    }
}

/// The symbol of an address, a type and a name.
fn symbol_of<'a>(word: &[u8], kind: &[u8], name: &'a [u8]) -> Option<Found<'a>>
    ensures { result ≡ symbol_of word.now kind.now name.now }
{
    if kind.len() != 1 || name.len() > SYMBOL_BYTES {
        return None;
    }
    let addr = address_of(word)?;
    Some(Found { addr, name })
}

/// The address that a word writes in hexadecimal digits.
fn address_of(word: &[u8]) -> Option<u64>
    ensures { result ≡ address_of word.now }
{
    if word.len() > DIGIT_LIMIT || has_prefix(word) {
        return None;
    }
    parse_number(word, 16).ok()
}

fn has_prefix(word: &[u8]) -> bool
    ensures { result ≡ has_prefix word.now }
{
    match word {
        [b'0', b'x' | b'X', ..] => true,
        _ => false,
    }
}

/// Whether the word is the type of a symbol that has no address.
fn is_undefined(word: &[u8]) -> bool
    ensures { result ≡ is_undefined word.now }
{
    word == b"U".as_slice() || word == b"w".as_slice() || word == b"v".as_slice()
}
