ghost use Rattle.std.specs.Prelude.{◌≡◌, codes, option_and_then};
ghost use Rattle.std.specs.Option.{option_map};
ghost use Rattle.program_words.specs.Commands.{asm_from, elf_from, load_from, lockstep_from, number_or, number_to, options_of, replay_from, request_with, run_from, uni_from};
ghost use Rattle.program_words.specs.Parser.{numbers_in, values_in};
ghost use Rattle.program_words.specs.Views.{command_view};

use crate::request::{Command, Options};
use clap::ArgMatches;

/// The request of the command of this word with what was found for it.
pub(crate) fn request<'a>(word: &str, found: &ArgMatches<'a>) -> Option<Command<'a>>
    ensures { option_map command_view result ≡ request_with word.now (values_in found.now) (numbers_in found.now) }
{
    match word {
        "uni" => uni(found),
        "replay" => replay(found),
        "run" => run(found),
        "lockstep" => lockstep(found),
        "asm" => asm(found),
        "elf" => elf(found),
        "load" => load(found),
        _ => None,
    }
}

fn uni<'a>(found: &ArgMatches<'a>) -> Option<Command<'a>>
    ensures { option_map command_view result ≡ uni_from (values_in found.now) }
{
    let image = value(found, "image")?;
    let script = value(found, "script")?;
    Some(Command::Uni { image, script })
}

fn replay<'a>(found: &ArgMatches<'a>) -> Option<Command<'a>>
    ensures { option_map command_view result ≡ replay_from (values_in found.now) }
{
    let image = value(found, "image")?;
    let map = value(found, "map")?;
    let script = value(found, "script")?;
    let journal = value(found, "journal")?;
    Some(Command::Replay {
        image,
        map,
        script,
        journal,
    })
}

fn run<'a>(found: &ArgMatches<'a>) -> Option<Command<'a>>
    ensures { option_map command_view result ≡ run_from (values_in found.now) (numbers_in found.now) }
{
    let image = value(found, "image")?;
    let map = value(found, "map")?;
    let script = value(found, "script")?;
    let journal = value(found, "journal")?;
    Some(Command::Run {
        image,
        map,
        script,
        journal,
        options: options(found),
    })
}

fn lockstep<'a>(found: &ArgMatches<'a>) -> Option<Command<'a>>
    ensures { option_map command_view result ≡ lockstep_from (values_in found.now) (numbers_in found.now) }
{
    let image = value(found, "image")?;
    let map = value(found, "map")?;
    let script = value(found, "script")?;
    let plan = value(found, "plan")?;
    let journal = value(found, "journal")?;
    Some(Command::Lockstep {
        image,
        map,
        script,
        plan,
        journal,
        options: options(found),
    })
}

fn asm<'a>(found: &ArgMatches<'a>) -> Option<Command<'a>>
    ensures { option_map command_view result ≡ asm_from (values_in found.now) }
{
    let source = value(found, "source")?;
    let image = value(found, "image")?;
    Some(Command::Asm { source, image })
}

fn elf<'a>(found: &ArgMatches<'a>) -> Option<Command<'a>>
    ensures { option_map command_view result ≡ elf_from (values_in found.now) }
{
    let executable = value(found, "elf")?;
    let image = value(found, "image")?;
    let map = value(found, "map")?;
    Some(Command::Elf {
        executable,
        image,
        map,
    })
}

fn load<'a>(found: &ArgMatches<'a>) -> Option<Command<'a>>
    ensures { option_map command_view result ≡ load_from (numbers_in found.now) }
{
    let number = input_number(found)?;
    Some(Command::Load { number })
}

/// The number of the input that is to be made.
fn input_number(found: &ArgMatches<'_>) -> Option<u32>
    ensures { result ≡ option_and_then (number_to 4294967295) (numbers_in found.now (codes "number")) }
{
    found.get_one::<u32>("number")
}

fn options(found: &ArgMatches<'_>) -> Options
    ensures { result ≡ options_of (numbers_in found.now) }
{
    Options {
        harts: harts(found),
        steps: number(found, "steps").unwrap_or(1_000_000),
        rounds: rounds(found),
    }
}

fn harts(found: &ArgMatches<'_>) -> u8
    ensures { result ≡ number_or (numbers_in found.now) (codes "harts") 255 1 }
{
    found.get_one::<u8>("harts").unwrap_or(1)
}

fn rounds(found: &ArgMatches<'_>) -> u32
    ensures { result ≡ number_or (numbers_in found.now) (codes "rounds") 4294967295 1000 }
{
    found.get_one::<u32>("rounds").unwrap_or(1_000)
}

/// The number of a name.
fn number(found: &ArgMatches<'_>, name: &str) -> Option<u64>
    ensures { result ≡ option_and_then (number_to 18446744073709551615) (numbers_in found.now name.now) }
{
    found.get_one::<u64>(name)
}

/// The value of a name, as it is written.
fn value<'a>(found: &ArgMatches<'a>, name: &str) -> Option<&'a str>
    ensures { option_map (λ s. s.now) result ≡ values_in found.now name.now }
{
    found.get_str(name)
}
