ghost use Rattle.std.specs.Prelude.{◌≡◌, ◌++◌, IfOk, OnOk};
ghost use Rattle.mach_base.specs.Texts.{newline};
ghost use Rattle.kdb_table.specs.Diagnostics.{message_with, message_of, detail_text, message_line, diagnostic_text};

use crate::words::word_at;
use mach_base::{OutOfMemory, Text, push_address, push_bytes, push_dec, push_newline};
use std::alloc::Global;
use std::marker::Model;

/// Why a line is refused. A word is named by its place in the line; the command's is 0.
#[derive(Clone, Copy, Debug, PartialEq, Eq)]
pub enum Diagnostic {
    /// Nothing has the name in this word.
    UnknownName(usize),
    /// The command takes another number of arguments.
    WrongArguments,
    /// BYTESPERWORD takes another value.
    BadWidth,
    /// RADIX takes another value.
    BadRadix,
    /// There is no such command.
    UnknownCommand,
    /// The variable is new, and there is no room for it.
    TooManyVariables,
    /// All breakpoint places are set.
    TooManyBreakpoints,
    /// A breakpoint has the address, or a macro the name.
    Duplicate,
    /// The breakpoint place of this number isn't set.
    NoBreakpoint(u64),
    /// This word names no register, or one that can't be set.
    BadRegister(usize),
    /// This word is no number, or one that is too large.
    BadNumber(usize),
    /// This address isn't mapped, or no breakpoint can stand at it.
    BadAddress(u64),
    /// This address isn't in a text segment.
    NotText(u64),
    /// The processor of this number isn't in the session.
    BadProcessor(u64),
    /// The session was entered on this processor, and is left from there alone.
    EnteredOn(u8),
    /// This processor is halted.
    IsHalted(u8),
    /// A count is out of its range.
    BadCount,
    /// A macro's line calls a macro or defines one.
    NestedMacro,
    /// A command has the name in this word.
    ReservedName(usize),
    /// There is no room for a further macro, or for a further line of this one.
    MacroFull,
    /// A quoted part isn't closed.
    UnclosedQuote,
    /// The line has more than 20 words before its pipe.
    TooManyWords,
    /// The words before and after the pipe are no command with a filter.
    BadPipe,
    /// The name in this word is no name.
    BadName(usize),
}

/// What a diagnostic's message ends with.
#[derive(Clone, Copy, Debug, PartialEq, Eq)]
pub enum Detail {
    Nothing,
    /// The word at a place of the line.
    Word(usize),
    Address(u64),
    Number(u64),
    /// The number of a processor that is halted.
    Halted(u8),
}

/// What is printed of a diagnostic. Contracts see it as the record of its number, its text and its detail.
#[derive(Debug, Drop)]
struct Message {
    number: u8,
    text: &'static [u8],
    detail: Detail,
}

impl Model for Message {
    ghost use Rattle.kdb_table.specs.Diagnostics.{Message};

    ghost Value = { Message };

    ghost view = { λ m. record { number = m.number; text = m.text.now; detail = m.detail } };
}

/// The message of this number, text and detail.
fn message_with(number: u8, text: &'static [u8], detail: Detail) -> Message
    ensures { result ≡ message_with number text.now detail }
{
    Message {
        number,
        text,
        detail,
    }
}

/// The message of a diagnostic.
#[tactic(auto, unfolding(crate::specs::Diagnostics::message_of))]
fn message_of(diagnostic: Diagnostic) -> Message
    ensures { result ≡ message_of diagnostic }
{
    match diagnostic {
        Diagnostic::UnknownName(place) => message_with(1, b"unknown name ", Detail::Word(place)),
        Diagnostic::WrongArguments => message_with(
            2,
            b"wrong number of arguments",
            Detail::Nothing,
        ),
        Diagnostic::BadWidth => message_with(3, b"bad width", Detail::Nothing),
        Diagnostic::BadRadix => message_with(4, b"bad radix", Detail::Nothing),
        Diagnostic::UnknownCommand => message_with(5, b"unknown command ", Detail::Word(0)),
        Diagnostic::TooManyVariables => message_with(6, b"too many variables", Detail::Nothing),
        Diagnostic::TooManyBreakpoints => message_with(7, b"too many breakpoints", Detail::Nothing),
        Diagnostic::Duplicate => message_with(8, b"duplicate", Detail::Nothing),
        Diagnostic::NoBreakpoint(place) => message_with(
            9,
            b"no breakpoint ",
            Detail::Number(place),
        ),
        Diagnostic::BadRegister(place) => message_with(10, b"bad register ", Detail::Word(place)),
        Diagnostic::BadNumber(place) => message_with(11, b"bad number ", Detail::Word(place)),
        Diagnostic::BadAddress(addr) => message_with(12, b"bad address ", Detail::Address(addr)),
        Diagnostic::NotText(addr) => message_with(13, b"not text ", Detail::Address(addr)),
        Diagnostic::BadProcessor(hart) => message_with(14, b"bad cpu ", Detail::Number(hart)),
        Diagnostic::EnteredOn(hart) => message_with(
            15,
            b"entered on cpu ",
            Detail::Number(u64::from(hart)),
        ),
        Diagnostic::IsHalted(hart) => message_with(16, b"cpu ", Detail::Halted(hart)),
        Diagnostic::BadCount => message_with(17, b"bad count", Detail::Nothing),
        Diagnostic::NestedMacro => message_with(18, b"nested macro ", Detail::Word(0)),
        Diagnostic::ReservedName(place) => message_with(19, b"reserved name ", Detail::Word(place)),
        Diagnostic::MacroFull => message_with(20, b"macro is full", Detail::Nothing),
        Diagnostic::UnclosedQuote => message_with(21, b"unclosed quote", Detail::Nothing),
        Diagnostic::TooManyWords => message_with(22, b"too many words", Detail::Nothing),
        Diagnostic::BadPipe => message_with(23, b"bad pipe", Detail::Nothing),
        Diagnostic::BadName(place) => message_with(24, b"bad name ", Detail::Word(place)),
    }
}

/// Appends the detail of a message about a line of these words.
#[tactic(auto, unfolding(crate::specs::Diagnostics::detail_text))]
fn push_detail(out: &mut Vec<u8>, words: &[Text], detail: Detail) -> Result<(), OutOfMemory>
    ensures { OnOk result (out.new.items ≡ out.old.items ++ detail_text words.now detail) }
{
    match detail {
        Detail::Nothing => (),
        Detail::Word(place) => push_bytes(out, word_at(words, place))?,
        Detail::Address(addr) => push_address(out, addr)?,
        Detail::Number(number) => push_dec(out, number)?,
        Detail::Halted(hart) => {
            push_dec(out, u64::from(hart))?;
            push_bytes(out, b" is halted")?;
        }
    }
    Ok(())
}

/// Appends the line of a message about these words.
#[tactic(auto, unfolding(crate::specs::Diagnostics::message_line))]
fn push_message(out: &mut Vec<u8>, words: &[Text], message: &Message) -> Result<(), OutOfMemory>
    ensures { OnOk result (out.new.items ≡ out.old.items ++ message_line words.now message.now) }
{
    push_bytes(out, b"diag: ")?;
    push_dec(out, u64::from(message.number))?;
    push_bytes(out, b": ")?;
    push_bytes(out, message.text)?;
    push_detail(out, words, message.detail)?;
    push_newline(out)?;
    Ok(())
}

/// The line of a diagnostic about these words, as a text.
pub fn diagnostic_text(
    alloc: Global,
    words: &[Text],
    diagnostic: Diagnostic,
) -> Result<Text, OutOfMemory>
    ensures { IfOk result (λ text. text ≡ diagnostic_text words.now diagnostic) }
{
    let mut out = Vec::new(alloc);
    push_message(&mut out, words, &message_of(diagnostic))?;
    Ok(Text::from_vec(out))
}
