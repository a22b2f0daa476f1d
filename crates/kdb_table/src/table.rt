ghost use Rattle.std.specs.Prelude.{◌≡◌};
ghost use Rattle.std.specs.List.{list_all};
ghost use Rattle.kdb_table.specs.Table.{expression_row, plain_row, row_of, is_called, is_width, is_digit, is_numeral, is_ending, is_spelled, takes, is_command, entry_of};

use crate::commands::{BreakpointChange, Command, Entry, ShowCommand};
use std::marker::Model;

/// The entries, in the order of `help`.
pub static ENTRIES: [Entry; 27] = [
    Entry::Run(Command::Show(ShowCommand::Md)),
    Entry::Run(Command::Show(ShowCommand::MdWidth)),
    Entry::Run(Command::Show(ShowCommand::MdCount)),
    Entry::Run(Command::Show(ShowCommand::Mdr)),
    Entry::Run(Command::Show(ShowCommand::Mds)),
    Entry::Run(Command::Show(ShowCommand::Id)),
    Entry::Run(Command::Mm),
    Entry::Run(Command::MmWidth),
    Entry::Run(Command::Show(ShowCommand::Rd)),
    Entry::Run(Command::Rm),
    Entry::Run(Command::Show(ShowCommand::BpList)),
    Entry::Run(Command::Bp),
    Entry::Run(Command::Show(ShowCommand::Bl)),
    Entry::Run(Command::Change(BreakpointChange::Clear)),
    Entry::Run(Command::Change(BreakpointChange::Disable)),
    Entry::Run(Command::Change(BreakpointChange::Enable)),
    Entry::Run(Command::Ss),
    Entry::Run(Command::Go),
    Entry::Run(Command::Show(ShowCommand::Bt)),
    Entry::Run(Command::Show(ShowCommand::Btc)),
    Entry::Run(Command::Show(ShowCommand::CpuList)),
    Entry::Run(Command::Cpu),
    Entry::Run(Command::Show(ShowCommand::Env)),
    Entry::Run(Command::SetOneWord),
    Entry::Run(Command::Set),
    Entry::Define,
    Entry::Run(Command::Show(ShowCommand::Help)),
];

/// What follows the name in a spelling.
#[derive(Clone, Copy, Debug, PartialEq, Eq)]
pub enum Ending {
    /// Nothing.
    Plain,
    /// A width.
    Width,
    /// A width, `c` and a number.
    WidthAndCount,
}

/// A row of the table of the commands.
#[derive(Debug, Drop)]
pub struct Row {
    name: &'static [u8],
    ending: Ending,
    usage: &'static [u8],
    least: u8,
    most: u8,
    expressions: bool,
}

impl Model for Row {
    ghost use Rattle.kdb_table.specs.Table.{Row};

    ghost Value = { Row };

    ghost view = { λ r. record { name = r.name.now; ending = r.ending; usage = r.usage.now; least = r.least; most = r.most; expressions = r.expressions } };
}

impl Row {
    /// How the command is written.
    pub fn usage(&self) -> &'static [u8]
        ensures { result.now ≡ self.now.usage }
    {
        self.usage
    }

    /// Whether each argument is an expression.
    pub fn expressions(&self) -> bool
        ensures { result ≡ self.now.expressions }
    {
        self.expressions
    }
}

/// A row whose arguments are expressions.
fn expression_row(
    name: &'static [u8],
    ending: Ending,
    usage: &'static [u8],
    least: u8,
    most: u8,
) -> Row
    ensures { result ≡ expression_row name.now ending usage.now least most }
{
    Row {
        name,
        ending,
        usage,
        least,
        most,
        expressions: true,
    }
}

/// A row whose arguments, if there are any, are no expressions, or not all of them.
fn plain_row(name: &'static [u8], usage: &'static [u8], least: u8, most: u8) -> Row
    ensures { result ≡ plain_row name.now usage.now least most }
{
    Row {
        name,
        ending: Ending::Plain,
        usage,
        least,
        most,
        expressions: false,
    }
}

/// The row of an entry.
#[tactic(auto, unfolding(crate::specs::Table::row_of))]
pub fn row_of(entry: Entry) -> Row
    ensures { result ≡ row_of entry }
{
    match entry {
        Entry::Run(Command::Show(ShowCommand::Md)) => expression_row(
            b"md",
            Ending::Plain,
            b"md E [E]",
            1,
            2,
        ),
        Entry::Run(Command::Show(ShowCommand::MdWidth)) => expression_row(
            b"md",
            Ending::Width,
            b"mdW E [E]",
            1,
            2,
        ),
        Entry::Run(Command::Show(ShowCommand::MdCount)) => expression_row(
            b"md",
            Ending::WidthAndCount,
            b"mdWcN E",
            1,
            1,
        ),
        Entry::Run(Command::Show(ShowCommand::Mdr)) => expression_row(
            b"mdr",
            Ending::Plain,
            b"mdr E E",
            2,
            2,
        ),
        Entry::Run(Command::Show(ShowCommand::Mds)) => expression_row(
            b"mds",
            Ending::Plain,
            b"mds E [E]",
            1,
            2,
        ),
        Entry::Run(Command::Show(ShowCommand::Id)) => expression_row(
            b"id",
            Ending::Plain,
            b"id E [E]",
            1,
            2,
        ),
        Entry::Run(Command::Mm) => expression_row(b"mm", Ending::Plain, b"mm E E", 2, 2),
        Entry::Run(Command::MmWidth) => expression_row(b"mm", Ending::Width, b"mmW E E", 2, 2),
        Entry::Run(Command::Show(ShowCommand::Rd)) => plain_row(b"rd", b"rd", 0, 0),
        Entry::Run(Command::Rm) => plain_row(b"rm", b"rm REG E", 2, 2),
        Entry::Run(Command::Show(ShowCommand::BpList)) => plain_row(b"bp", b"bp", 0, 0),
        Entry::Run(Command::Bp) => expression_row(b"bp", Ending::Plain, b"bp E", 1, 1),
        Entry::Run(Command::Show(ShowCommand::Bl)) => plain_row(b"bl", b"bl", 0, 0),
        Entry::Run(Command::Change(BreakpointChange::Clear)) => plain_row(b"bc", b"bc N", 1, 1),
        Entry::Run(Command::Change(BreakpointChange::Disable)) => plain_row(b"bd", b"bd N", 1, 1),
        Entry::Run(Command::Change(BreakpointChange::Enable)) => plain_row(b"be", b"be N", 1, 1),
        Entry::Run(Command::Ss) => plain_row(b"ss", b"ss", 0, 0),
        Entry::Run(Command::Go) => expression_row(b"go", Ending::Plain, b"go [E]", 0, 1),
        Entry::Run(Command::Show(ShowCommand::Bt)) => plain_row(b"bt", b"bt", 0, 0),
        Entry::Run(Command::Show(ShowCommand::Btc)) => plain_row(b"btc", b"btc", 0, 0),
        Entry::Run(Command::Show(ShowCommand::CpuList)) => plain_row(b"cpu", b"cpu", 0, 0),
        Entry::Run(Command::Cpu) => plain_row(b"cpu", b"cpu N", 1, 1),
        Entry::Run(Command::Show(ShowCommand::Env)) => plain_row(b"env", b"env", 0, 0),
        Entry::Run(Command::SetOneWord) => plain_row(b"set", b"set NAME=VALUE", 1, 1),
        Entry::Run(Command::Set) => plain_row(b"set", b"set NAME VALUE", 2, 2),
        Entry::Define => plain_row(b"defcmd", b"defcmd NAME [USAGE [HELP]]", 1, 3),
        Entry::Run(Command::Show(ShowCommand::Help)) => plain_row(b"help", b"help", 0, 0),
    }
}

/// Whether the word is a spelling of the entry.
#[tactic(auto, unfolding(crate::specs::Table::is_spelled))]
pub fn is_spelled(word: &[u8], entry: Entry) -> bool
    ensures { result ≡ is_spelled word.now entry }
{
    let row = row_of(entry);
    match word.strip_prefix(row.name) {
        Some(rest) => is_ending(row.ending, rest),
        None => false,
    }
}

/// Whether the entry takes so many arguments.
#[tactic(auto, unfolding(crate::specs::Table::takes))]
pub fn takes(count: usize, entry: Entry) -> bool
    ensures { result ≡ takes count entry }
{
    let row = row_of(entry);
    usize::from(row.least) <= count && count <= usize::from(row.most)
}

/// Whether an entry is spelled so.
#[tactic(auto, unfolding(crate::specs::Table::is_command, crate::specs::Table::entries))]
pub fn is_command(word: &[u8]) -> bool
    ensures { result ≡ is_command word.now }
{
    ENTRIES.iter().any(|entry| is_spelled(word, *entry))
}

/// Whether the word is a spelling of the entry, which takes so many arguments.
fn is_called(word: &[u8], count: usize, entry: Entry) -> bool
    ensures { result ≡ is_called word.now count entry }
{
    is_spelled(word, entry) && takes(count, entry)
}

/// The entry that is spelled so and takes so many arguments; None exactly where no row has both.
#[tactic(auto, unfolding(crate::specs::Table::entry_of, crate::specs::Table::entries))]
pub fn entry_of(word: &[u8], count: usize) -> Option<Entry>
    ensures { result ≡ entry_of word.now count }
{
    ENTRIES
        .iter()
        .copied()
        .find(|entry| is_called(word, count, *entry))
}

/// Whether these bytes can follow the name.
#[tactic(auto, unfolding(crate::specs::Table::is_ending))]
fn is_ending(ending: Ending, bytes: &[u8]) -> bool
    ensures { result ≡ is_ending ending bytes.now }
{
    match ending {
        Ending::Plain => bytes.is_empty(),
        Ending::Width => match bytes {
            [width] => is_width(*width),
            _ => false,
        },
        Ending::WidthAndCount => match bytes {
            [width, separator, digits @ ..] => {
                is_width(*width) && *separator == b'c' && is_numeral(digits)
            }
            _ => false,
        },
    }
}

/// Whether it is the digit of a width.
fn is_width(digit: u8) -> bool
    ensures { result ≡ is_width digit }
{
    digit == b'1' || digit == b'2' || digit == b'4' || digit == b'8'
}

/// Whether it is a decimal digit.
fn is_digit(byte: u8) -> bool
    ensures { result ≡ is_digit byte }
{
    byte >= b'0' && byte <= b'9'
}

/// Whether the bytes are decimal digits without leading zeros.
fn is_numeral(digits: &[u8]) -> bool
    ensures { result ≡ is_numeral digits.now }
{
    match digits {
        [] => false,
        [digit] => is_digit(*digit),
        [b'0', ..] => false,
        digits => are_digits(digits),
    }
}

/// Whether all are decimal digits.
fn are_digits(digits: &[u8]) -> bool
    ensures { result ≡ list_all is_digit digits.now }
{
    digits.iter().all(|digit| is_digit(*digit))
}
