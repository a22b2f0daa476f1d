ghost use Rattle.std.specs.Prelude.{◌≡◌};
ghost use Rattle.kdb_cmd.specs.FirstWord.{other_name, first_word_of};

use kdb_macro::Macros;
use kdb_table::{Command, Entry, argument_count, entry_of, is_command, is_spelled, word_at};
use mach_base::Text;

/// What the first word of a line names.
#[derive(Clone, Copy, Debug, PartialEq, Eq)]
pub enum FirstWord {
    /// There is no word.
    Nothing,
    /// A command, with as many arguments as it takes.
    Command(Command),
    /// `defcmd`, which begins a macro.
    Define,
    /// The macro of this number.
    Macro(usize),
    /// A command, which takes another number of arguments.
    WrongCount,
    /// No command and no macro.
    Unknown,
}

/// What a word names that isn't an entry of the table with its number of arguments.
fn other_name(macros: &Macros, word: &[u8]) -> FirstWord
    ensures { result ≡ other_name macros.now.macros word.now }
{
    if is_spelled(word, Entry::Define) {
        return FirstWord::Define;
    }
    if is_command(word) {
        return FirstWord::WrongCount;
    }
    match macros.find(word) {
        Some(number) => FirstWord::Macro(number),
        None => FirstWord::Unknown,
    }
}

/// What the first word of a line names.
#[tactic(auto, unfolding(crate::specs::FirstWord::first_word_of))]
pub fn first_word_of(macros: &Macros, words: &[Text]) -> FirstWord
    ensures { result ≡ first_word_of macros.now.macros words.now }
{
    if words.is_empty() {
        return FirstWord::Nothing;
    }
    match entry_of(word_at(words, 0), argument_count(words)) {
        Some(Entry::Run(command)) => FirstWord::Command(command),
        Some(Entry::Define) => FirstWord::Define,
        None => other_name(macros, word_at(words, 0)),
    }
}
