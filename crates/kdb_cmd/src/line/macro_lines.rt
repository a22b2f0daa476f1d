ghost use Rattle.std.specs.Prelude.{◌≡◌, slice_get, IfOk};
ghost use Rattle.kdb_cmd.specs.Desk.{IsReady, IsSameDesk, Says};
ghost use Rattle.kdb_cmd.specs.MacroLines.{goes_on, inner_answer, inner_line, lines_in, macro_answer};

use crate::desk::Desk;
use crate::line::first_word::first_word_of;
use crate::line::meanings::words_meaning;
use crate::line::output::{cut_refusal, filtered_output, said_or_line};
use crate::outcomes::stay;
use crate::{Outcome, Said};
use kdb_lex::{LexFault, Lexed, lex};
use kdb_macro::Macros;
use mach_base::{OutOfMemory, Peek, Text, push_bytes};
use std::alloc::Global;

/// Whether the session goes on.
fn goes_on(outcome: Outcome) -> bool
    ensures { result ≡ goes_on outcome }
{
    match outcome {
        Outcome::Stay => true,
        Outcome::Go | Outcome::Step => false,
    }
}

/// The words of a macro's line, which calls and begins no macro. A diagnostic changes nothing.
#[tactic(auto, using(crate::proofs::Meant::says_from), unfolding(crate::specs::MacroLines::inner_answer, crate::specs::MacroLines::inner_meaning))]
fn inner_answer<P: Peek>(desk: &mut Desk<P>, words: &[Text]) -> Result<Said, OutOfMemory>
    requires ready { IsReady P.memory desk.old }
    ensures answer { Says P.memory result desk.old desk.new (inner_answer words.now) }
    ensures ready { IsReady P.memory desk.new }
    ensures same { IsSameDesk P.rest desk.old desk.new }
{
    let first_word = first_word_of(&desk.kdb.macros, words);
    let meant = words_meaning(desk, first_word, words);
    said_or_line(desk.alloc, words, meant)
}

/// A line of a macro.
#[tactic(auto, unfolding(crate::specs::MacroLines::inner_line, crate::specs::Output::cut_answer))]
fn inner_line<P: Peek>(desk: &mut Desk<P>, line: &[u8]) -> Result<Said, OutOfMemory>
    requires ready { IsReady P.memory desk.old }
    ensures answer { Says P.memory result desk.old desk.new (inner_line line.now) }
    ensures ready { IsReady P.memory desk.new }
    ensures same { IsSameDesk P.rest desk.old desk.new }
{
    let Lexed { words, grep } = match lex(desk.alloc, line) {
        Ok(lexed) => lexed,
        Err(LexFault::OutOfMemory) => return Err(OutOfMemory),
        Err(fault) => return cut_refusal(desk.alloc, fault),
    };
    let said = inner_answer(desk, words.as_slice())?;
    let said = filtered_output(desk.alloc, said, grep)?;
    Ok(said)
}

/// The lines of the macro of a number.
fn lines_of(alloc: Global, macros: &Macros, number: usize) -> Result<Vec<Text>, OutOfMemory>
    ensures { IfOk result (λ lines. lines.items ≡ lines_in (slice_get macros.now.macros number)) }
{
    let mut lines = Vec::new(alloc);
    let mut place = 0;
    while let Some(line) = macros.line_at(number, place) {
        lines.push(Text::from_vec(Vec::from_slice(alloc, line)?))?;
        place += 1;
    }
    Ok(lines)
}

/// Lines of a macro, in order, until one leaves.
fn run_lines<P: Peek>(desk: &mut Desk<P>, lines: &[Text]) -> Result<Said, OutOfMemory>
    requires ready { IsReady P.memory desk.old }
    ensures answer { Says P.memory result desk.old desk.new (macro_answer lines.now) }
    ensures ready { IsReady P.memory desk.new }
    ensures same { IsSameDesk P.rest desk.old desk.new }
{
    let mut out = Vec::new(desk.alloc);
    for line in lines {
        let said = inner_line(desk, line.as_bytes())?;
        push_bytes(&mut out, said.text.as_bytes())?;
        if !goes_on(said.outcome) {
            return Ok(Said {
                text: Text::from_vec(out),
                outcome: said.outcome,
            });
        }
    }
    Ok(stay(Text::from_vec(out)))
}

/// Runs the macro of a number.
pub fn run_macro<P: Peek>(desk: &mut Desk<P>, number: usize) -> Result<Said, OutOfMemory>
    requires ready { IsReady P.memory desk.old }
    ensures answer { Says P.memory result desk.old desk.new (macro_answer (lines_in (slice_get desk.old.kdb.now.macros.macros number))) }
    ensures ready { IsReady P.memory desk.new }
    ensures same { IsSameDesk P.rest desk.old desk.new }
{
    let lines = lines_of(desk.alloc, &desk.kdb.macros, number)?;
    let said = run_lines(desk, lines.as_slice())?;
    Ok(said)
}
