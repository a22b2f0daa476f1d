ghost use Rattle.std.specs.Prelude.{◌≡◌, ◌<◌, ◌^◌, true, false, length, IfOk, OnOk};
ghost use Rattle.mach_base.specs.Masks.{has_bit};
ghost use Rattle.kdb_view.specs.State.{state_of};
ghost use Rattle.kdb_cmd.specs.Desk.{IsReady, IsSameDesk, Changes, Says};
ghost use Rattle.kdb_cmd.specs.Line.{outer_meaning, macro_called, words_answer, cut_line, stored_answer, line_answer, LineSays};

use crate::desk::{Desk, Gathering};
use crate::line::first_word::{FirstWord, first_word_of};
use crate::line::macro_definition::{begin_macro, store_line};
use crate::line::macro_lines::run_macro;
use crate::line::meanings::words_meaning;
use crate::line::output::{cut_refusal, filtered_output, said_or_line};
use crate::outcomes::{silent, stay};
use crate::{Kdb, Outcome, Said};
use hart_ctx::Context;
use kdb_lex::{LexFault, Lexed, lex};
use kdb_table::{Diagnostic, Refusal, diagnostic_text};
use mach_base::{Hart, OutOfMemory, Peek, Text};
use std::alloc::Global;
use sym_map::Symbols;

/// A line of these words, which don't call a macro as they should.
#[tactic(auto, unfolding(crate::specs::Line::outer_meaning))]
fn outer_meaning<P: Peek>(
    desk: &mut Desk<P>,
    first_word: FirstWord,
    words: &[Text],
) -> Result<Said, Refusal>
    requires ready { IsReady P.memory desk.old }
    requires defining { desk.old.kdb.now.macros.defining ≡ false }
    ensures answer { Changes P.memory result desk.old desk.new (outer_meaning first_word words.now) }
    ensures ready { IsReady P.memory desk.new }
    ensures same { IsSameDesk P.rest desk.old desk.new }
{
    match first_word {
        FirstWord::Define => {
            begin_macro(&mut desk.kdb.macros, words)?;
            Ok(silent(desk.alloc, Outcome::Stay))
        }
        FirstWord::Macro(_) => Err(Refusal::Diagnosed(Diagnostic::WrongArguments)),
        _ => words_meaning(desk, first_word, words),
    }
}

/// The macro that a line of these words calls; a call has no arguments.
fn macro_called(first_word: FirstWord, words: &[Text]) -> Option<usize>
    ensures { result ≡ macro_called first_word words.now }
{
    match first_word {
        FirstWord::Macro(number) => { if words.len() == 1 { Some(number) } else { None } }
        _ => None,
    }
}

/// A line of these words. A diagnostic changes nothing.
#[tactic(auto, using(crate::proofs::Meant::says_from), unfolding(crate::specs::Line::words_answer, crate::specs::Line::outer_answer))]
fn words_answer<P: Peek>(desk: &mut Desk<P>, words: &[Text]) -> Result<Said, OutOfMemory>
    requires ready { IsReady P.memory desk.old }
    requires defining { desk.old.kdb.now.macros.defining ≡ false }
    ensures answer { Says P.memory result desk.old desk.new (words_answer words.now) }
    ensures ready { IsReady P.memory desk.new }
    ensures same { IsSameDesk P.rest desk.old desk.new }
{
    let first_word = first_word_of(&desk.kdb.macros, words);
    match macro_called(first_word, words) {
        Some(number) => run_macro(desk, number),
        None => {
            let meant = outer_meaning(desk, first_word, words);
            said_or_line(desk.alloc, words, meant)
        }
    }
}

/// A line that is cut into words.
#[tactic(auto, unfolding(crate::specs::Line::cut_line, crate::specs::Output::cut_answer))]
fn cut_line<P: Peek>(desk: &mut Desk<P>, line: &[u8]) -> Result<Said, OutOfMemory>
    requires ready { IsReady P.memory desk.old }
    requires defining { desk.old.kdb.now.macros.defining ≡ false }
    ensures answer { Says P.memory result desk.old desk.new (cut_line line.now) }
    ensures ready { IsReady P.memory desk.new }
    ensures same { IsSameDesk P.rest desk.old desk.new }
{
    let Lexed { words, grep } = match lex(desk.alloc, line) {
        Ok(lexed) => lexed,
        Err(LexFault::OutOfMemory) => return Err(OutOfMemory),
        Err(fault) => return cut_refusal(desk.alloc, fault),
    };
    let said = words_answer(desk, words.as_slice())?;
    let said = filtered_output(desk.alloc, said, grep)?;
    Ok(said)
}

/// A line that is read while a macro is being defined.
#[tactic(auto, unfolding(crate::specs::Line::stored_answer))]
fn stored_answer<P: Peek>(desk: &mut Desk<P>, line: &[u8]) -> Result<Said, OutOfMemory>
    requires ready { IsReady P.memory desk.old }
    requires defining { desk.old.kdb.now.macros.defining ≡ true }
    ensures answer { Says P.memory result desk.old desk.new (λ _. stored_answer line.now) }
    ensures ready { IsReady P.memory desk.new }
    ensures same { IsSameDesk P.rest desk.old desk.new }
{
    match store_line(&mut desk.kdb.macros, line) {
        Ok(()) => Ok(silent(desk.alloc, Outcome::Stay)),
        Err(Refusal::Diagnosed(diagnostic)) => {
            let text = diagnostic_text(desk.alloc, &[], diagnostic)?;
            Ok(stay(text))
        }
        Err(Refusal::OutOfMemory) => Err(OutOfMemory),
    }
}

/// A line of a session.
#[tactic(auto, unfolding(crate::specs::Line::line_answer))]
fn line_answer<P: Peek>(desk: &mut Desk<P>, line: &[u8]) -> Result<Said, OutOfMemory>
    requires ready { IsReady P.memory desk.old }
    ensures answer { Says P.memory result desk.old desk.new (line_answer line.now) }
    ensures ready { IsReady P.memory desk.new }
    ensures same { IsSameDesk P.rest desk.old desk.new }
{
    if desk.kdb.macros.defining() {
        stored_answer(desk, line)
    } else {
        cut_line(desk, line)
    }
}

/// Runs one line, without its LF, of a session that was entered on the processor `entry`. Bit k of `gathered` stands for
/// processor k of the session. A line that is refused prints its diagnostic and changes nothing; of a macro's lines
/// those before it have changed what they change. Out of memory, nothing is claimed of contexts, `kdb` and the bytes of
/// memory.
#[tactic(auto, using(crate::proofs::Gathered::gathered_there))]
pub fn run_line<P: Peek>(
    alloc: Global,
    mem: &mut P,
    ctxs: &mut [Context],
    kdb: &mut Kdb,
    names: &Symbols,
    gathered: u64,
    entry: Hart,
    line: &[u8],
) -> Result<Said, OutOfMemory>
    requires gathered { gathered < 2 ^ length ctxs.old }
    requires current_before { has_bit gathered kdb.old.current ≡ true }
    requires entry { has_bit gathered entry.0 ≡ true }
    ensures answer { IfOk result (LineSays gathered entry.0 line.now (state_of ctxs.old (P.memory mem.old) kdb.old names.now) (state_of ctxs.new (P.memory mem.new) kdb.new names.now)) }
    ensures current_there { kdb.new.current < length ctxs.new }
    ensures current { has_bit gathered kdb.new.current ≡ true }
    ensures rest { P.rest mem.new ≡ P.rest mem.old }
{
    let mut desk = Desk {
        ctxs,
        kdb,
        mem,
        names,
        gathering: Gathering {
            gathered,
            entry: entry.0,
        },
        alloc,
    };
    let said = line_answer(&mut desk, line);
    let Desk {
        ctxs,
        kdb,
        mem,
        names: _names,
        gathering: _gathering,
        alloc: _alloc,
    } = desk;
    // Each loan ends in a statement of its own.
    let _mem = mem;
    let _kdb = kdb;
    let _ctxs = ctxs;
    said
}
