ghost use Rattle.std.specs.Prelude.{◌≡◌, ◌≢◌, ◌⊎◌, ◌++◌, ◌%◌, ◌==◌, false, Some, None, IfOk, IfErr, OnOk, count_by};
ghost use Rattle.std.specs.List.{before_first};
ghost use Rattle.std.specs.Option.{option_copied};
ghost use Rattle.kdb_lex.specs.Mark.{is_pipe};
ghost use Rattle.kdb_lex.specs.Line.{is_comment, without_comment, marks, words_of, FollowsPipe, pattern_of, filter_pattern, command_words, line_pattern, refusal_of};

use crate::LexFault;
use crate::mark::{Mark, mark_of};
use crate::word::Word;
use mach_base::{OutOfMemory, Text, is_blank};
use std::alloc::Global;

/// The most words before the pipe, with the command's.
pub const MOST_WORDS: usize = 20;

/// The words of a line before its pipe, and the pattern of its filter. docs/debugger.md has the rules.
#[derive(Debug, Drop)]
pub struct Lexed {
    /// The words, the command first, without their quotes. A comment and a line of blanks have none.
    pub words: Vec<Text>,
    /// The pattern after the pipe, where there is one; it isn't empty.
    pub grep: Option<Text>,
}

/// Cuts a line, without its LF, into words.
pub fn lex(alloc: Global, line: &[u8]) -> Result<Lexed, LexFault>
    ensures words { IfOk result (λ lexed. lexed.words.items ≡ command_words line.now) }
    ensures grep { IfOk result (λ lexed. lexed.grep ≡ line_pattern line.now) }
    ensures ok { OnOk result (refusal_of line.now ≡ None) }

    // Running out of memory alone has no cause in the line.
    ensures err { IfErr result (λ fault. fault ≢ LexFault.OutOfMemory → refusal_of line.now ≡ Some fault) }
{
    let line = cut_comment(line);
    if has_open_quote(line) {
        return Err(LexFault::Unclosed);
    }
    let mut words = Vec::new(alloc);
    let behind = push_words(&mut words, line)?;
    if words.len() > MOST_WORDS {
        return Err(LexFault::TooManyWords);
    }
    let Some(behind) = behind else {
        return Ok(Lexed { words, grep: None });
    };
    if words.is_empty() {
        return Err(LexFault::BadPipe);
    }
    let pattern = filter(alloc, behind)?;
    Ok(Lexed {
        words,
        grep: Some(pattern),
    })
}

fn is_comment(line: &[u8]) -> bool
    ensures { result ≡ is_comment line.now }
{
    for byte in line {
        if !is_blank(*byte) {
            return *byte == b'#';
        }
    }
    false
}

/// What there is to read of a line.
fn cut_comment(line: &[u8]) -> &[u8]
    ensures { result.now ≡ without_comment line.now }
{
    if is_comment(line) { &line[..0] } else { line }
}

/// Whether the number of quotes is odd.
fn has_open_quote(line: &[u8]) -> bool
    ensures { result ≡ (count_by (λ b. b == 34) line.now % 2 == 1) }
{
    line.iter().filter(|byte| **byte == b'"').count() % 2 == 1
}

/// Appends the words before the first pipe, and gives what follows it.
fn push_words<'a>(words: &mut Vec<Text>, line: &'a [u8]) -> Result<Option<&'a [u8]>, OutOfMemory>
    ensures words { OnOk result (words.new.items ≡ words.old.items ++ words_of (before_first is_pipe (marks false line.now))) }
    ensures behind { IfOk result (λ behind. FollowsPipe (marks false line.now) (option_copied behind)) }
{
    let mut word = Word::new(*words.allocator());
    let mut quoted = false;
    for (i, byte) in line.iter().enumerate() {
        match mark_of(quoted, *byte) {
            Mark::Blank => word.end(words)?,
            Mark::Pipe => {
                word.end(words)?;
                let (_, behind) = line.split_at(i + 1);
                return Ok(Some(behind));
            }
            Mark::Quote => {
                quoted = !quoted;
                word.begin();
            }
            Mark::Byte(byte) => word.push(byte)?,
        }
    }
    word.end(words)?;
    Ok(None)
}

/// The pattern of the filter that follows a pipe.
fn filter(alloc: Global, line: &[u8]) -> Result<Text, LexFault>
    ensures ok { IfOk result (λ pattern. filter_pattern (marks false line.now) ≡ Some pattern) }
    ensures err { IfErr result (λ fault. (fault ≡ LexFault.OutOfMemory) ⊎ ((fault ≡ LexFault.BadPipe) × (filter_pattern (marks false line.now) ≡ None))) }
{
    let mut words = Vec::new(alloc);
    let None = push_words(&mut words, line)? else {
        return Err(LexFault::BadPipe);
    };
    match pattern_of(words) {
        Some(pattern) => Ok(pattern),
        None => Err(LexFault::BadPipe),
    }
}

/// The pattern of the words `grep PATTERN`.
fn pattern_of(mut words: Vec<Text>) -> Option<Text>
    ensures { result ≡ pattern_of words.items }
{
    if words.len() != 2
        || words[0].as_bytes() != b"grep".as_slice()
        || words[1].as_bytes().is_empty()
    {
        return None;
    }
    words.pop()
}
