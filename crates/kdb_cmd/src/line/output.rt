ghost use Rattle.std.specs.Prelude.{◌≡◌, [], IfOk};
ghost use Rattle.kdb_table.specs.Diagnostics.{diagnostic_text};
ghost use Rattle.kdb_cmd.specs.Output.{lex_diagnostic, IsPrinted, filtered_output};

use crate::outcomes::stay;
use crate::{Outcome, Said};
use kdb_grep::filter;
use kdb_lex::LexFault;
use kdb_table::{Diagnostic, Refusal, diagnostic_text};
use mach_base::{OutOfMemory, Text};
use std::alloc::Global;

/// The diagnostic of a line that isn't cut into words.
fn lex_diagnostic(fault: LexFault) -> Diagnostic
    ensures { result ≡ lex_diagnostic fault }
{
    match fault {
        LexFault::Unclosed => Diagnostic::UnclosedQuote,
        LexFault::TooManyWords => Diagnostic::TooManyWords,
        LexFault::BadPipe | LexFault::OutOfMemory => Diagnostic::BadPipe,
    }
}

/// A line that isn't cut into words.
pub fn cut_refusal(alloc: Global, fault: LexFault) -> Result<Said, OutOfMemory>
    ensures text { IfOk result (λ said. said.text ≡ diagnostic_text [] (lex_diagnostic fault)) }
    ensures outcome { IfOk result (λ said. said.outcome ≡ Outcome.Stay) }
{
    let text = diagnostic_text(alloc, &[], lex_diagnostic(fault))?;
    Ok(stay(text))
}

/// What is printed of a line with these words: what their command says, or the line of its diagnostic.
pub fn said_or_line(
    alloc: Global,
    words: &[Text],
    meant: Result<Said, Refusal>,
) -> Result<Said, OutOfMemory>
    ensures { IfOk result (IsPrinted words.now meant) }
{
    match meant {
        Ok(said) => Ok(said),
        Err(Refusal::Diagnosed(diagnostic)) => {
            let text = diagnostic_text(alloc, words, diagnostic)?;
            Ok(stay(text))
        }
        Err(Refusal::OutOfMemory) => Err(OutOfMemory),
    }
}

/// What was said, through the line's filter.
pub fn filtered_output(alloc: Global, said: Said, grep: Option<Text>) -> Result<Said, OutOfMemory>
    ensures text { IfOk result (λ kept. kept.text ≡ filtered_output grep said.text) }
    ensures outcome { IfOk result (λ kept. kept.outcome ≡ said.outcome) }
{
    match grep {
        None => Ok(said),
        Some(pattern) => {
            let kept = filter(alloc, said.text.as_bytes(), pattern.as_bytes())?;
            Ok(Said {
                text: Text::from_vec(kept),
                outcome: said.outcome,
            })
        }
    }
}
