//! One line of an image file: its directive and its numbers.

ghost use Rattle.std.specs.Prelude.{◌≡◌, ◌≤◌, length};
ghost use Rattle.mach_base.specs.Lines.{words_of};
ghost use Rattle.img_text.specs.Directives.{number_up_to, each_number, has_count, line_of};

use crate::directive::{Directive, directive_of, largest_of, least_of, most_of};
use crate::fault::Why;
use crate::values::Values;
use mach_base::{next_word, parse_number};

/// The line's directive and its numbers; None for a line that is skipped.
#[tactic(auto, unfolding(crate::specs::Directives::line_of))]
pub fn line_of(line: &[u8]) -> Result<Option<(Directive, Values)>, Why>
    ensures { result ≡ line_of (words_of line.now) }
{
    let Some((word, rest)) = next_word(line) else {
        return Ok(None);
    };
    if word[0] == b'#' {
        return Ok(None);
    }
    let Some(directive) = directive_of(word) else {
        return Err(Why::Word);
    };
    if !has_count(rest, least_of(directive), most_of(directive)) {
        return Err(Why::Word);
    }
    let values = numbers_of(rest, largest_of(directive))?;
    Ok(Some((directive, values)))
}

/// Whether the line has so many words.
fn has_count(line: &[u8], least: usize, most: usize) -> bool
    ensures { result ≡ has_count least most (words_of line.now) }
{
    let mut count = 0;
    let mut left = line;
    while let Some((_, rest)) = next_word(left) {
        if count == most {
            return false;
        }
        count += 1;
        left = rest;
    }
    least <= count
}

/// The numbers that the words of the line write.
fn numbers_of(line: &[u8], largest: u64) -> Result<Values, Why>
    requires { length (words_of line.now) ≤ 8 }
    ensures { result ≡ each_number largest (words_of line.now) }
{
    let mut values = Values::new();
    let mut left = line;
    while let Some((word, rest)) = next_word(left) {
        let number = number_up_to(word, largest)?;
        values.push(number);
        left = rest;
    }
    Ok(values)
}

fn number_up_to(word: &[u8], largest: u64) -> Result<u64, Why>
    ensures { result ≡ number_up_to largest word.now }
{
    match parse_number(word, 10) {
        Ok(number) if number <= largest => Ok(number),
        _ => Err(Why::Number),
    }
}
