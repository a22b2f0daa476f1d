ghost use Rattle.std.specs.Prelude.{◌≡◌, IfOk, false};
ghost use Rattle.clap.specs.Words.{rule_of};
ghost use Rattle.program_words.specs.Rows.{between, file};
ghost use Rattle.program_words.specs.Parser.{HasRule, operand_rule, option_rule};

use clap::builder::ValueParser;
use clap::{Arg, ArgAction};
use std::alloc::{AllocError, Global};

/// An operand that is the name of a file.
pub(crate) fn file<'a>(alloc: Global, name: &'a str) -> Arg<'a>
    ensures rule { rule_of result ≡ operand_rule (file name.entry.now) }
    ensures local { result.global ≡ false }
{
    Arg::new(alloc, name).required(true).action(ArgAction::Set)
}

/// An operand that is a number within bounds.
pub(crate) fn number<'a>(alloc: Global, name: &'a str, low: u64, high: u64) -> Arg<'a>
    ensures rule { rule_of result ≡ operand_rule (between name.entry.now low high) }
    ensures local { result.global ≡ false }
{
    Arg::new(alloc, name)
        .required(true)
        .action(ArgAction::Set)
        .value_parser(ValueParser::unsigned(low, high))
}

/// An option that is a number within bounds, which may be given once.
pub(crate) fn option<'a>(alloc: Global, name: &'a str, low: u64, high: u64) -> Arg<'a>
    ensures rule { rule_of result ≡ option_rule (between name.entry.now low high) }
    ensures local { result.global ≡ false }
{
    Arg::new(alloc, name)
        .long(name)
        .action(ArgAction::Set)
        .value_parser(ValueParser::unsigned(low, high))
}

/// The command with one more argument, which holds for that command alone.
pub(crate) fn with_argument<'a>(
    command: clap::Command<'a>,
    argument: Arg<'a>,
) -> Result<clap::Command<'a>, AllocError>
    requires { argument.global ≡ false }
    ensures { IfOk result (HasRule command.entry (rule_of argument.entry)) }
{
    command.arg(argument)
}
