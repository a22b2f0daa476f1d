ghost use Rattle.std.specs.Prelude.{◌≡◌, true, false, Ok, MatchResult};
ghost use Rattle.mach_base.specs.Lines.{words_of};
ghost use Rattle.kdb_table.specs.Refused.{Refuses};
ghost use Rattle.kdb_cmd.specs.MacroDefinition.{is_end, is_reserved, macro_diagnostic, macros_after_line, macros_after_defcmd};

use kdb_macro::{MacroFault, Macros};
use kdb_table::{Diagnostic, Entry, Refusal, argument_count, is_command, takes, word_at};
use mach_base::{Text, next_word};

/// Whether a line is `endefcmd` between blanks.
fn is_end(line: &[u8]) -> bool
    ensures { result ≡ is_end (words_of line.now) }
{
    match next_word(line) {
        None => false,
        Some((word, rest)) => word == b"endefcmd".as_slice() && next_word(rest).is_none(),
    }
}

/// Whether an entry of the table has the name, or the end of a macro.
pub fn is_reserved(name: &[u8]) -> bool
    ensures { result ≡ is_reserved name.now }
{
    is_command(name) || name == b"endefcmd".as_slice()
}

/// The diagnostic of a macro that isn't begun, or of a line that isn't kept.
fn macro_diagnostic(fault: MacroFault) -> Diagnostic
    ensures { result ≡ macro_diagnostic fault }
{
    match fault {
        MacroFault::BadName => Diagnostic::BadName(1),
        MacroFault::Reserved => Diagnostic::ReservedName(1),
        MacroFault::Duplicate => Diagnostic::Duplicate,
        MacroFault::Full | MacroFault::OutOfMemory => Diagnostic::MacroFull,
    }
}

/// A line while a macro is being defined: it is kept, or ends the macro.
#[tactic(auto, unfolding(crate::specs::MacroDefinition::macros_after_line))]
pub fn store_line(macros: &mut Macros, line: &[u8]) -> Result<(), Refusal>
    requires { macros.old.defining ≡ true }
    ensures { MatchResult result (λ _. macros_after_line macros.old line.now ≡ Ok macros.new) (λ refusal. Refuses refusal (macros_after_line macros.old line.now) × (macros.new ≡ macros.old)) }
{
    if is_end(line) {
        macros.end();
        return Ok(());
    }
    match macros.add(line) {
        Ok(()) => Ok(()),
        Err(MacroFault::OutOfMemory) => Err(Refusal::OutOfMemory),
        Err(fault) => Err(Refusal::Diagnosed(macro_diagnostic(fault))),
    }
}

/// `defcmd NAME [USAGE [HELP]]`.
#[tactic(auto, unfolding(crate::specs::MacroDefinition::macros_after_defcmd))]
pub fn begin_macro(macros: &mut Macros, words: &[Text]) -> Result<(), Refusal>
    requires { macros.old.defining ≡ false }
    ensures { MatchResult result (λ _. macros_after_defcmd macros.old words.now ≡ Ok macros.new) (λ refusal. Refuses refusal (macros_after_defcmd macros.old words.now) × (macros.new ≡ macros.old)) }
{
    if !takes(argument_count(words), Entry::Define) {
        return Err(Refusal::Diagnosed(Diagnostic::WrongArguments));
    }
    let name = word_at(words, 1);
    match macros.begin(name, is_reserved(name)) {
        Ok(()) => Ok(()),
        Err(MacroFault::OutOfMemory) => Err(Refusal::OutOfMemory),
        Err(fault) => Err(Refusal::Diagnosed(macro_diagnostic(fault))),
    }
}
