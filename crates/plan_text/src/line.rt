//! One line of a plan file: the run that it says.

ghost use Rattle.std.specs.Prelude.{◌≡◌, IfOk, MatchResult, Ok};
ghost use Rattle.mach_base.specs.Lines.{words_of};
ghost use Rattle.plan_text.specs.Reading.{IsFault, ended, fronted, hart_of, line_of, of_harts, run_of, some_harts, times_of};

use crate::PlanFault;
use crate::run::Run;
use mach_base::{Hart, MOST_TICKS, OutOfMemory, next_word, parse_number};
use std::alloc::Global;

/// The run of the line of this number; None for a line that is skipped.
#[tactic(auto, unfolding(crate::specs::Reading::line_of))]
pub fn line_of(alloc: Global, number: u64, harts: u8, line: &[u8]) -> Result<Option<Run>, PlanFault>
    ensures { MatchResult result (λ run. line_of number harts (words_of line.now) ≡ Ok run) (λ fault. IsFault fault (line_of number harts (words_of line.now))) }
{
    let Some((word, _)) = next_word(line) else {
        return Ok(None);
    };
    if word[0] == b'#' {
        return Ok(None);
    }
    match run_of(alloc, harts, line)? {
        Some(run) => Ok(Some(run)),
        None => Err(PlanFault::Bad { line: number }),
    }
}

/// The run that the words of a line say, if they say one.
fn run_of(alloc: Global, harts: u8, line: &[u8]) -> Result<Option<Run>, OutOfMemory>
    ensures { IfOk result (λ run. run ≡ run_of harts (words_of line.now)) }
{
    let mut found = Vec::new(alloc);
    let mut left = line;
    while let Some((word, rest)) = next_word(left) {
        let Some(hart) = hart_of(harts, word) else {
            return Ok(ended(found, word, rest));
        };
        found.push(hart)?;
        left = rest;
    }
    Ok(of_harts(found, 1))
}

/// The run of these harts, by the word after them and what follows it.
fn ended(harts: Vec<Hart>, word: &[u8], rest: &[u8]) -> Option<Run>
    ensures { result ≡ some_harts (fronted harts.items (ended word.now (words_of rest.now))) }
{
    if next_word(rest).is_some() {
        return None;
    }
    let times = times_of(word)?;
    of_harts(harts, times)
}

/// The run of these harts, if there are any.
fn of_harts(harts: Vec<Hart>, times: u64) -> Option<Run>
    ensures { result ≡ of_harts harts.items times }
{
    if harts.is_empty() {
        return None;
    }
    Some(Run { harts, times })
}

/// The hart of this number, below the number of harts.
fn hart_of(harts: u8, word: &[u8]) -> Option<Hart>
    ensures { result ≡ hart_of harts word.now }
{
    let number = parse_number(word, 10).ok()?;
    if number < u64::from(harts) {
        Some(Hart(number as u8))
    } else {
        None
    }
}

/// How many times a list is gone through, by the word that says it.
fn times_of(word: &[u8]) -> Option<u64>
    ensures { result ≡ times_of word.now }
{
    let [b'x', digits @ ..] = word else {
        return None;
    };
    let times = parse_number(digits, 10).ok()?;
    if 1 <= times && times <= MOST_TICKS {
        Some(times)
    } else {
        None
    }
}
