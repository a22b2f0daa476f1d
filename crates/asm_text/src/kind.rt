//! What a line of a source is.

ghost use Rattle.std.specs.Prelude.{◌≡◌, ◌<◌, length, None, Some, MatchOption};
ghost use Rattle.std.specs.List.{list_all};
ghost use Rattle.mach_base.specs.Lines.{words_of};
ghost use Rattle.asm_text.specs.Kinds.{is_name_byte, is_name, name_in, label_of, directive_kind, kind_of};

use mach_base::next_word;

/// What a line is by its words. An instruction may be right or not.
#[derive(Clone, Copy, Debug, PartialEq, Eq)]
pub enum LineKind {
    /// No word, or a comment.
    Skipped,
    /// A segment begins.
    Segment,
    /// Values of so many bytes each.
    Values(u64),
    /// A hart's start.
    Start,
    /// A name and a colon.
    Label,
    /// All else.
    Instruction,
}

/// What a line is.
#[tactic(auto, unfolding(crate::specs::Kinds::kind_of))]
pub fn kind_of(line: &[u8]) -> LineKind
    ensures { result ≡ kind_of (words_of line.now) }
{
    let Some((word, _)) = next_word(line) else {
        return LineKind::Skipped;
    };
    if word[0] == b'#' {
        return LineKind::Skipped;
    }
    if let Some(kind) = directive_kind(word) {
        return kind;
    }
    match label_of(line) {
        Some(_) => LineKind::Label,
        None => LineKind::Instruction,
    }
}

/// What a line is by the directive that its first word is.
fn directive_kind(word: &[u8]) -> Option<LineKind>
    ensures { result ≡ directive_kind word.now }
{
    if word == b"text".as_slice() {
        return Some(LineKind::Segment);
    }
    if word == b"data".as_slice() {
        return Some(LineKind::Segment);
    }
    if word == b"rodata".as_slice() {
        return Some(LineKind::Segment);
    }
    if word == b"b".as_slice() {
        return Some(LineKind::Values(1));
    }
    if word == b"w".as_slice() {
        return Some(LineKind::Values(4));
    }
    if word == b"d".as_slice() {
        return Some(LineKind::Values(8));
    }
    if word == b"pc".as_slice() {
        return Some(LineKind::Start);
    }
    if word == b"sp".as_slice() {
        return Some(LineKind::Start);
    }
    None
}

/// The name that a line gives, if it is a label.
pub fn label_of(line: &[u8]) -> Option<&[u8]>
    ensures { MatchOption result (label_of (words_of line.now) ≡ None) (λ name. label_of (words_of line.now) ≡ Some name.now) }
{
    let (word, rest) = next_word(line)?;
    if next_word(rest).is_some() {
        return None;
    }
    name_in(word)
}

/// The name in front of the colon that ends a word.
fn name_in(word: &[u8]) -> Option<&[u8]>
    requires { 0 < length word.now }
    ensures { MatchOption result (name_in word.now ≡ None) (λ name. name_in word.now ≡ Some name.now) }
{
    let (name, colon) = word.split_at(word.len() - 1);
    if colon == b":".as_slice() && is_name(name) {
        Some(name)
    } else {
        None
    }
}

/// Whether the bytes are a name.
fn is_name(name: &[u8]) -> bool
    ensures { result ≡ is_name name.now }
{
    let Some((first, rest)) = name.split_first() else {
        return false;
    };
    if !first.is_ascii_alphabetic() {
        return false;
    }
    if !has_name_bytes(rest) {
        return false;
    }
    rest.len() <= 254
}

fn has_name_bytes(bytes: &[u8]) -> bool
    ensures { result ≡ list_all is_name_byte bytes.now }
{
    bytes.iter().all(|byte| is_name_byte(*byte))
}

fn is_name_byte(byte: u8) -> bool
    ensures { result ≡ is_name_byte byte }
{
    byte.is_ascii_alphanumeric() || byte == b'_'
}
