ghost use Rattle.std.specs.Prelude.{◌≡◌, true, Some, None, map, IfOk, IfErr};
ghost use Rattle.std.specs.Option.{option_map};
ghost use Rattle.std.specs.String.{string_bytes};
ghost use Rattle.clap.specs.Words.{kind_of};
ghost use Rattle.program_words.specs.Commands.{command_of, request_of, writes_apart};
ghost use Rattle.program_words.specs.Laws.{IsCommandWithin};
ghost use Rattle.program_words.specs.Views.{command_view, request_in};
ghost use Rattle.program_words.specs.declared.request.WordsFault.TheVariants.{Usage};

use crate::found::request;
use crate::laws::requests_are_within_bounds;
use crate::parser::program;
use crate::request::{Command, WordsFault};
use clap::ArgMatches;
use clap::error::ErrorKind;
use std::alloc::Global;

/// The command that the words ask for. Usage comes where they ask for none: no words, another word, too few
/// or too many operands, an option that the command lacks or that comes twice, a number that is none or out of bounds, one
/// name for both files that `elf` writes.
pub fn command_of(words: &[String], alloc: Global) -> Result<Command<'_>, WordsFault>
    ensures ok { IfOk result (λ c. command_of (map string_bytes words.now) ≡ Some (command_view c)) }
    ensures within { IfOk result (λ c. IsCommandWithin (command_view c)) }
    ensures apart { IfOk result (λ c. writes_apart (command_view c) ≡ true) }
    ensures usage { IfErr result (λ e. e ≡ Usage → command_of (map string_bytes words.now) ≡ None) }
{
    requests_are_within_bounds();
    let command = request_of(words, alloc)?;
    if !writes_apart(command) {
        return Err(WordsFault::Usage);
    }
    Ok(command)
}

/// Whether the command has a name of its own for each file that it writes.
fn writes_apart(command: Command<'_>) -> bool
    ensures { result ≡ writes_apart (command_view command.entry) }
{
    match command {
        Command::Elf { image, map, .. } => image != map,
        _ => true,
    }
}

/// What the words ask for, whatever names its files have. Usage comes where they are right for no command.
fn request_of(words: &[String], alloc: Global) -> Result<Command<'_>, WordsFault>
    ensures ok { IfOk result (λ r. request_of (map string_bytes words.now) ≡ Some (command_view r)) }
    ensures usage { IfErr result (λ e. e ≡ Usage → request_of (map string_bytes words.now) ≡ None) }
{
    let found = matches(words, alloc)?;
    asked(&found).ok_or(WordsFault::Usage)
}

/// The request of what clap found.
fn asked<'a>(found: &ArgMatches<'a>) -> Option<Command<'a>>
    ensures { option_map command_view result ≡ request_in found.now }
{
    let (word, found) = found.subcommand()?;
    request(word, found)
}

/// What clap finds in the words.
fn matches(words: &[String], alloc: Global) -> Result<ArgMatches<'_>, WordsFault>
    ensures ok { IfOk result (λ m. request_in m ≡ request_of (map string_bytes words.now)) }
    ensures usage { IfErr result (λ e. e ≡ Usage → request_of (map string_bytes words.now) ≡ None) }
{
    let Ok(program) = program(alloc) else {
        return Err(WordsFault::OutOfMemory);
    };
    match program.try_get_matches_from(words) {
        Ok(found) => Ok(found),
        Err(error) => Err(fault(&error)),
    }
}

/// What an error of clap is to the program: out of memory, or a wrong use.
fn fault(error: &clap::Error) -> WordsFault
    ensures { result ≡ Usage → ¬ (kind_of error.now ≡ ErrorKind.OutOfMemory) }
{
    match error.kind() {
        ErrorKind::OutOfMemory => WordsFault::OutOfMemory,
        _ => WordsFault::Usage,
    }
}
