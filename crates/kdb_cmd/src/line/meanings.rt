ghost use Rattle.std.specs.Prelude.{◌≡◌, ◌<◌, ◌^◌, length};
ghost use Rattle.kdb_table.specs.Refused.{Answers};
ghost use Rattle.kdb_cmd.specs.Desk.{IsReady, IsSameDesk, Changes};
ghost use Rattle.kdb_cmd.specs.Meanings.{display_text, command_answer, words_meaning};

use crate::command::memory_change::mm;
use crate::command::registers::{rd, rm};
use crate::command::session_exit::{go, ss_refusal};
use crate::desk::{Desk, Gathering};
use crate::line::first_word::FirstWord;
use crate::outcomes::{silent, stay};
use crate::{Outcome, Said};
use kdb_table::{
    Command, Diagnostic, Entry, Refusal, ShowCommand, help_text, row_of, spelled_width, word_at,
};
use kdb_view::{
    Values, View, assignment_of, bl, bp, bt, btc, change_answer, cpu, cpu_list, env, id, md,
    md_count, mdr, mds, set, two_words, values_of,
};
use mach_base::{Hart, Peek, Text};
use std::alloc::Global;

/// What a command shows.
#[tactic(auto, unfolding(crate::specs::Meanings::display_text))]
fn display_text<P: Peek>(
    alloc: Global,
    view: &View<P>,
    gathered: u64,
    showing: ShowCommand,
    word: &[u8],
    values: Values,
) -> Result<Text, Refusal>
    requires gathered { gathered < 2 ^ length view.now.harts }
    ensures { Answers result (display_text showing word.now values gathered view.now) }
{
    match showing {
        ShowCommand::Md => md(alloc, view, view.width(), values),
        ShowCommand::MdWidth => md(alloc, view, spelled_width(word), values),
        ShowCommand::MdCount => md_count(alloc, view, word, values),
        ShowCommand::Mdr => mdr(alloc, view, values),
        ShowCommand::Mds => mds(alloc, view, values),
        ShowCommand::Id => id(alloc, view, values),
        ShowCommand::Rd => Ok(rd(alloc, view)?),
        ShowCommand::BpList | ShowCommand::Bl => Ok(bl(alloc, view.names, view.kdb.breaks)?),
        ShowCommand::Bt => Ok(bt(alloc, view)?),
        ShowCommand::Btc => Ok(btc(alloc, view, gathered)?),
        ShowCommand::CpuList => Ok(cpu_list(alloc, view, gathered)?),
        ShowCommand::Env => Ok(env(alloc, &view.kdb.env)?),
        ShowCommand::Help => Ok(help_text(alloc)?),
    }
}

/// A command with its words and the values of its arguments.
#[tactic(auto, using(crate::proofs::Gathered::gathered_there), unfolding(crate::specs::Meanings::command_answer))]
fn command_answer<P: Peek>(
    desk: &mut Desk<P>,
    command: Command,
    words: &[Text],
    values: Values,
) -> Result<Said, Refusal>
    requires ready { IsReady P.memory desk.old }
    ensures answer { Changes P.memory result desk.old desk.new (command_answer command words.now values) }
    ensures ready { IsReady P.memory desk.new }
    ensures same { IsSameDesk P.rest desk.old desk.new }
{
    let alloc = desk.alloc;
    let Gathering { gathered, entry } = desk.gathering;
    match command {
        Command::Show(showing) => {
            let word = word_at(words, 0);
            let text = display_text(alloc, &desk.view(), gathered, showing, word, values)?;
            Ok(stay(text))
        }
        Command::Mm => {
            let width = desk.view().width();
            mm(desk, width, values)
        }
        Command::MmWidth => mm(desk, spelled_width(word_at(words, 0)), values),
        Command::Rm => rm(desk, words),
        Command::Bp => {
            let set = bp(alloc, &desk.view(), values.address())?;
            desk.kdb.breaks = set.breaks;
            Ok(stay(set.text))
        }
        Command::Change(change) => {
            let answer = change_answer(alloc, desk.kdb.breaks, change, word_at(words, 1))?;
            desk.kdb.breaks = answer.breaks;
            Ok(stay(answer.text))
        }
        Command::Cpu => {
            let answer = cpu(alloc, gathered, word_at(words, 1))?;
            desk.kdb.current = answer.current;
            Ok(stay(answer.text))
        }
        Command::SetOneWord => {
            let wanted = assignment_of(word_at(words, 1))?;
            set(&mut desk.kdb.env, wanted)?;
            Ok(silent(alloc, Outcome::Stay))
        }
        Command::Set => {
            set(&mut desk.kdb.env, two_words(words))?;
            Ok(silent(alloc, Outcome::Stay))
        }
        Command::Ss => match ss_refusal(&desk.view(), Hart(entry)) {
            Some(diagnostic) => Err(Refusal::Diagnosed(diagnostic)),
            None => Ok(silent(alloc, Outcome::Step)),
        },
        Command::Go => go(desk, values.first),
    }
}

/// Words that call no macro and begin none: a command's arguments have their values first, where they are expressions.
#[tactic(auto, unfolding(crate::specs::Meanings::words_meaning, crate::specs::Meanings::command_meaning))]
pub fn words_meaning<P: Peek>(
    desk: &mut Desk<P>,
    first_word: FirstWord,
    words: &[Text],
) -> Result<Said, Refusal>
    requires ready { IsReady P.memory desk.old }
    ensures answer { Changes P.memory result desk.old desk.new (words_meaning first_word words.now) }
    ensures ready { IsReady P.memory desk.new }
    ensures same { IsSameDesk P.rest desk.old desk.new }
{
    match first_word {
        FirstWord::Nothing => Ok(silent(desk.alloc, Outcome::Stay)),
        FirstWord::Command(command) => {
            let are_expressions = row_of(Entry::Run(command)).expressions();
            let values = values_of(&desk.view(), words, are_expressions)?;
            command_answer(desk, command, words, values)
        }
        FirstWord::Define | FirstWord::Macro(_) => Err(Refusal::Diagnosed(Diagnostic::NestedMacro)),
        FirstWord::WrongCount => Err(Refusal::Diagnosed(Diagnostic::WrongArguments)),
        FirstWord::Unknown => Err(Refusal::Diagnosed(Diagnostic::UnknownCommand)),
    }
}
