ghost use Rattle.std.specs.Prelude.{◌≡◌, ◌≤◌, IfOk};
ghost use Rattle.kdb_view.specs.Arguments.{fault_diagnostic, argument, address, argument_if_there, expressions, values_of, count_or_diagnostic, count_wanted, lines_wanted};

use crate::view::View;
use kdb_expr::{EvalFault, eval};
use kdb_table::{Diagnostic, count_within, word_at};
use mach_base::{Peek, Text};

/// The diagnostic of the word at a place that has no value.
fn fault_diagnostic(fault: EvalFault, place: usize) -> Diagnostic
    ensures { result ≡ fault_diagnostic place fault }
{
    match fault {
        EvalFault::NotFound => Diagnostic::UnknownName(place),
        EvalFault::BadNumber => Diagnostic::BadNumber(place),
        EvalFault::BadReg => Diagnostic::BadRegister(place),
    }
}

/// The value of the word at a place of the line.
#[tactic(auto, unfolding(crate::specs::Arguments::argument))]
pub fn argument<P: Peek>(view: &View<P>, words: &[Text], place: usize) -> Result<u64, Diagnostic>
    ensures { result ≡ argument view.now words.now place }
{
    match eval(view, word_at(words, place)) {
        Ok(value) => Ok(value),
        Err(fault) => Err(fault_diagnostic(fault, place)),
    }
}

/// The value of the word at a place, if the line has that word.
fn argument_if_there<P: Peek>(
    view: &View<P>,
    words: &[Text],
    place: usize,
) -> Result<Option<u64>, Diagnostic>
    ensures { result ≡ argument_if_there view.now words.now place }
{
    if place < words.len() {
        let value = argument(view, words, place)?;
        Ok(Some(value))
    } else {
        Ok(None)
    }
}

/// The values of a line's arguments.
#[derive(Clone, Copy, Debug, PartialEq, Eq)]
pub struct Values {
    pub first: Option<u64>,
    pub second: Option<u64>,
}

impl Values {
    /// The first value; the table sees to it that each command that reads it has one.
    pub fn address(self) -> u64
        ensures { result ≡ address self }
    {
        self.first.unwrap_or(0)
    }
}

/// The values of the arguments, from left to right.
#[tactic(auto, unfolding(crate::specs::Arguments::expressions))]
fn expressions<P: Peek>(view: &View<P>, words: &[Text]) -> Result<Values, Diagnostic>
    ensures { result ≡ expressions view.now words.now }
{
    let first = argument_if_there(view, words, 1)?;
    let second = argument_if_there(view, words, 2)?;
    Ok(Values { first, second })
}

/// The values of the arguments, where they are expressions.
#[tactic(auto, unfolding(crate::specs::Arguments::values_of))]
pub fn values_of<P: Peek>(
    view: &View<P>,
    words: &[Text],
    are_expressions: bool,
) -> Result<Values, Diagnostic>
    ensures { result ≡ values_of view.now words.now are_expressions }
{
    if are_expressions {
        expressions(view, words)
    } else {
        Ok(Values {
            first: None,
            second: None,
        })
    }
}

/// A count, which is from 1 to the most that there may be.
#[tactic(auto, unfolding(crate::specs::Arguments::count_wanted))]
pub fn count_wanted(count: u64, most: u32) -> Result<u32, Diagnostic>
    ensures value { result ≡ count_wanted count most }
    ensures few { IfOk result (λ count. count ≤ most) }
{
    match count_within(count, most) {
        Some(count) => Ok(count),
        None => Err(Diagnostic::BadCount),
    }
}

/// The number of lines that the argument `[E]` names, MDCOUNT where it is left out.
#[tactic(auto, unfolding(crate::specs::Arguments::lines_wanted))]
pub fn lines_wanted<P: Peek>(view: &View<P>, count: Option<u64>) -> Result<u32, Diagnostic>
    ensures value { result ≡ lines_wanted view.now count }
    ensures few { IfOk result (λ lines. lines ≤ 256) }
{
    match count {
        None => Ok(view.line_count()),
        Some(count) => count_wanted(count, 256),
    }
}
