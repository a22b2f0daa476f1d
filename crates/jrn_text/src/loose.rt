//! What a line may mean: read loosely, since the caller writes the meaning again and compares.

ghost use Rattle.std.specs.Prelude.{◌≡◌, ◌≤◌};
ghost use Rattle.std.specs.Result.{result_ok};
ghost use Rattle.mach_base.specs.Number.{number_of};
ghost use Rattle.jrn_text.specs.Loose.{number_below, with_hart, harts_from, late_in, opening_in, ending_in, lettered_entry, loose_entry, numbers_in_line, entry_meant, numbers_meant};

use crate::cuts::{after_blank, cut_at};
use mach_base::{Ending, Entry, Hart, MOST_HARTS, mask_with, parse_number};

/// A number below a bound of at most 256.
fn number_below(bound: u64, text: &[u8]) -> Option<u8>
    requires { bound ≤ 256 }
    ensures { result ≡ number_below bound text.now }
{
    match parse_number(text, 10) {
        Ok(number) if number < bound => Some(number as u8),
        _ => None,
    }
}

/// The mask with one hart more, by its text.
fn with_hart(mask: u64, text: &[u8]) -> Option<u64>
    ensures { result ≡ with_hart mask text.now }
{
    match number_below(u64::from(MOST_HARTS), text) {
        Some(hart) => Some(mask_with(mask, hart)),
        None => None,
    }
}

/// The harts of a list, at most so many of them, added to a mask.
#[tactic(auto, using(crate::proofs::Masks::harts_from_some))]
fn harts_from(most: u8, mask: u64, text: &[u8]) -> Option<u64>
    ensures { result ≡ harts_from most mask text.now }
{
    if most == 0 {
        return None;
    }
    match cut_at(b',', text) {
        Some((first, rest)) => harts_from(most - 1, with_hart(mask, first)?, rest),
        None => with_hart(mask, text),
    }
}

/// A mask of late harts.
#[tactic(auto, unfolding(crate::specs::Loose::late_in))]
fn late_in(text: &[u8]) -> Option<u64>
    ensures { result ≡ late_in text.now }
{
    if text == b"-".as_slice() {
        return Some(0);
    }
    harts_from(MOST_HARTS, 0, text)
}

/// The entry of a hart that opens a session, and of the late harts.
fn opening_in(text: &[u8]) -> Option<Entry>
    ensures { result ≡ opening_in text.now }
{
    let (hart, late) = cut_at(b' ', text)?;
    let hart = number_below(256, hart)?;
    let late = late_in(late)?;
    Some(Entry::Open(Hart(hart), late))
}

/// The ending of a word.
fn ending_in(text: &[u8]) -> Option<Ending>
    ensures { result ≡ ending_in text.now }
{
    if text == b"script".as_slice() {
        return Some(Ending::ScriptEnd);
    }
    if text == b"halted".as_slice() {
        return Some(Ending::AllHalted);
    }
    if text == b"limit".as_slice() {
        return Some(Ending::StepLimit);
    }
    None
}

/// The entry of a letter and of what follows the blank after it.
#[tactic(auto, unfolding(crate::specs::Loose::lettered_entry))]
fn lettered_entry(letter: u8, text: &[u8]) -> Option<Entry>
    ensures { result ≡ lettered_entry letter text.now }
{
    match letter {
        b'S' => Some(Entry::Step(Hart(number_below(256, text)?))),
        b'I' => Some(Entry::Intr(Hart(number_below(256, text)?))),
        b'C' => Some(Entry::Send(Hart(number_below(256, text)?))),
        b'T' => Some(Entry::Take(Hart(number_below(256, text)?))),
        b'O' => opening_in(text),
        b'U' => Some(Entry::Pull(number_below(256, text)?)),
        b'L' => Some(Entry::Line(Hart(number_below(256, text)?))),
        b'P' => Some(Entry::Plant(number_below(256, text)?)),
        b'A' => Some(Entry::PlantStep(parse_number(text, 16).ok()?)),
        b'E' => Some(Entry::Close(Hart(number_below(256, text)?))),
        b'F' => Some(Entry::Off(ending_in(text)?)),
        _ => None,
    }
}

/// The entry that a line without its line feed may mean.
#[tactic(auto, unfolding(crate::specs::Loose::loose_entry))]
fn loose_entry(line: &[u8]) -> Option<Entry>
    ensures { result ≡ loose_entry line.now }
{
    match line {
        [b'B'] => Some(Entry::PullStep),
        [letter, b' ', text @ ..] => lettered_entry(*letter, text),
        _ => None,
    }
}

/// The numbers of harts and of steps that a first line without its line feed may mean.
fn numbers_in_line(line: &[u8]) -> Option<(u8, u64)>
    ensures { result ≡ numbers_in_line line.now }
{
    let rest = after_blank(after_blank(after_blank(line)?)?)?;
    let (harts, rest) = cut_at(b' ', rest)?;
    let limit = after_blank(rest)?;
    let harts = number_below(256, harts)?;
    let limit = parse_number(limit, 10).ok()?;
    Some((harts, limit))
}

/// The entry that the first line of a text may mean.
pub fn entry_meant(text: &[u8]) -> Option<Entry>
    ensures { result ≡ entry_meant text.now }
{
    let (line, _) = cut_at(b'\n', text)?;
    loose_entry(line)
}

/// The numbers that the first line of a text may mean.
pub fn numbers_meant(text: &[u8]) -> Option<(u8, u64)>
    ensures { result ≡ numbers_meant text.now }
{
    let (line, _) = cut_at(b'\n', text)?;
    numbers_in_line(line)
}
