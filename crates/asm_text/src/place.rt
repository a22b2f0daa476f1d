//! The address at which the next byte stands.

ghost use Rattle.std.specs.Prelude.{◌≡◌, length};
ghost use Rattle.mach_base.specs.Lines.{words_of};
ghost use Rattle.asm_text.specs.Kinds.{base_of, moved, place_after};

use crate::kind::{LineKind, kind_of};
use mach_base::{next_word, parse_number};

/// The place after a line; None before any segment.
#[tactic(auto, unfolding(crate::specs::Kinds::place_after))]
pub fn place_after(place: Option<u64>, line: &[u8]) -> Option<u64>
    ensures { result ≡ place_after place (words_of line.now) }
{
    let Some((_, rest)) = next_word(line) else {
        return place;
    };
    match kind_of(line) {
        LineKind::Segment => base_of(rest),
        LineKind::Values(unit) => moved(place, unit.wrapping_mul(count_words(rest))),
        LineKind::Instruction => moved(place, 4),
        LineKind::Skipped | LineKind::Start | LineKind::Label => place,
    }
}

/// The base of a segment by the words after its directive.
fn base_of(words: &[u8]) -> Option<u64>
    ensures { result ≡ base_of (words_of words.now) }
{
    let (word, _) = next_word(words)?;
    parse_number(word, 10).ok()
}

fn moved(place: Option<u64>, bytes: u64) -> Option<u64>
    ensures { result ≡ moved place bytes }
{
    match place {
        Some(place) => Some(place.wrapping_add(bytes)),
        None => None,
    }
}

/// How many words a line has.
fn count_words(line: &[u8]) -> u64
    ensures { result ≡ length (words_of line.now) }
{
    let mut count = 0;
    let mut left = line;
    while let Some((_, rest)) = next_word(left) {
        count += 1;
        left = rest;
    }
    count
}
