ghost use Rattle.std.specs.Prelude.{◌≡◌, [], ◌∷◌, codes, IfOk, map};
ghost use Rattle.program_words.specs.Parser.{HasCommand, HasRules, IsParser, IsRow, operand_rule, option_rule, program, program_settings};
ghost use Rattle.program_words.specs.Rows.{asm_row, command_rows, elf_row, file, load_row, lockstep_row, replay_row, run_options, run_row, uni_row};

use crate::arguments::{file, number, option, with_argument};
use mach_base::{MOST_HARTS, MOST_ROUNDS, MOST_STEPS};
use std::alloc::{AllocError, Global};

/// `uni IMAGE SCRIPT`
fn uni<'a>(alloc: Global) -> Result<clap::Command<'a>, AllocError>
    ensures { IfOk result (IsRow uni_row) }
{
    let command = clap::Command::new(alloc, "uni");
    let command = with_argument(command, file(alloc, "image"))?;
    with_argument(command, file(alloc, "script"))
}

/// `replay IMAGE MAP SCRIPT JOURNAL`
fn replay<'a>(alloc: Global) -> Result<clap::Command<'a>, AllocError>
    ensures { IfOk result (IsRow replay_row) }
{
    let command = clap::Command::new(alloc, "replay");
    let command = with_session_files(command, alloc)?;
    with_argument(command, file(alloc, "journal"))
}

/// `run IMAGE MAP SCRIPT JOURNAL` with its options.
fn run<'a>(alloc: Global) -> Result<clap::Command<'a>, AllocError>
    ensures { IfOk result (IsRow run_row) }
{
    let command = clap::Command::new(alloc, "run");
    let command = with_session_files(command, alloc)?;
    let command = with_argument(command, file(alloc, "journal"))?;
    with_run_options(command, alloc)
}

/// `lockstep IMAGE MAP SCRIPT PLAN JOURNAL` with its options.
fn lockstep<'a>(alloc: Global) -> Result<clap::Command<'a>, AllocError>
    ensures { IfOk result (IsRow lockstep_row) }
{
    let command = clap::Command::new(alloc, "lockstep");
    let command = with_session_files(command, alloc)?;
    let command = with_argument(command, file(alloc, "plan"))?;
    let command = with_argument(command, file(alloc, "journal"))?;
    with_run_options(command, alloc)
}

/// `asm SOURCE IMAGE`
fn asm<'a>(alloc: Global) -> Result<clap::Command<'a>, AllocError>
    ensures { IfOk result (IsRow asm_row) }
{
    let command = clap::Command::new(alloc, "asm");
    let command = with_argument(command, file(alloc, "source"))?;
    with_argument(command, file(alloc, "image"))
}

/// `elf ELF IMAGE MAP`
fn elf<'a>(alloc: Global) -> Result<clap::Command<'a>, AllocError>
    ensures { IfOk result (IsRow elf_row) }
{
    let command = clap::Command::new(alloc, "elf");
    let command = with_argument(command, file(alloc, "elf"))?;
    let command = with_argument(command, file(alloc, "image"))?;
    with_argument(command, file(alloc, "map"))
}

/// `load NUMBER`
fn load<'a>(alloc: Global) -> Result<clap::Command<'a>, AllocError>
    ensures { IfOk result (IsRow load_row) }
{
    let command = clap::Command::new(alloc, "load");
    with_argument(command, number(alloc, "number", 0, u32::MAX as u64))
}

/// The command with the files of a session: its image, its map and its script.
fn with_session_files<'a>(
    command: clap::Command<'a>,
    alloc: Global,
) -> Result<clap::Command<'a>, AllocError>
    ensures { IfOk result (HasRules command.entry (map operand_rule (file (codes "image") ∷ file (codes "map") ∷ file (codes "script") ∷ []))) }
{
    let command = with_argument(command, file(alloc, "image"))?;
    let command = with_argument(command, file(alloc, "map"))?;
    with_argument(command, file(alloc, "script"))
}

/// The command with the options of a run.
fn with_run_options<'a>(
    command: clap::Command<'a>,
    alloc: Global,
) -> Result<clap::Command<'a>, AllocError>
    ensures { IfOk result (HasRules command.entry (map option_rule run_options)) }
{
    let command = with_argument(command, option(alloc, "harts", 1, MOST_HARTS as u64))?;
    let command = with_argument(command, option(alloc, "steps", 1, MOST_STEPS))?;
    with_argument(command, option(alloc, "rounds", 1, MOST_ROUNDS as u64))
}

/// The parser of all the words.
pub(crate) fn program<'a>(alloc: Global) -> Result<clap::Command<'a>, AllocError>
    ensures { IfOk result (λ command. IsParser command (program command_rows)) }
{
    let program = settings(alloc);
    let program = with_row(program, uni(alloc)?)?;
    let program = with_row(program, replay(alloc)?)?;
    let program = with_row(program, run(alloc)?)?;
    let program = with_row(program, lockstep(alloc)?)?;
    let program = with_row(program, asm(alloc)?)?;
    let program = with_row(program, elf(alloc)?)?;
    with_row(program, load(alloc)?)
}

/// The program without its commands: the words come without its name, the first has to be a command, and there is no
/// help and no version.
fn settings<'a>(alloc: Global) -> clap::Command<'a>
    ensures { IsParser result (program_settings) }
{
    clap::Command::new(alloc, "kdbsim")
        .no_binary_name(true)
        .disable_help_flag(true)
        .disable_help_subcommand(true)
        .disable_version_flag(true)
        .subcommand_required(true)
}

/// The program with one more command.
fn with_row<'a>(
    program: clap::Command<'a>,
    command: clap::Command<'a>,
) -> Result<clap::Command<'a>, AllocError>
    ensures { IfOk result (HasCommand program.entry command.entry) }
{
    program.subcommand(command)
}
