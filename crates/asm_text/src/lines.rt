//! The image that stands for a source, line by line.

ghost use Rattle.std.specs.Prelude.{◌≡◌, ◌++◌, [], ◌∷◌, IfOk, OnOk};
ghost use Rattle.mach_base.specs.Lines.{lines_of, words_of};
ghost use Rattle.mach_base.specs.Number.{dec_text};
ghost use Rattle.asm_text.specs.Kinds.{label_of};
ghost use Rattle.asm_text.specs.Labels.{table_labels};
ghost use Rattle.asm_text.specs.Reading.{image_header, image_line, is_first, lines_for, lines_text, word_line, image_lines};

use crate::instruction::word_at;
use crate::kind::{LineKind, kind_of, label_of};
use crate::labels::{Labels, is_given_at, labels_of};
use crate::place::place_after;
use mach_base::{OutOfMemory, next_line, push_bytes, push_dec};
use std::alloc::Global;

/// The text of the image that stands for the lines from a source's second on.
pub fn image_text(alloc: Global, text: &[u8]) -> Result<Vec<u8>, OutOfMemory>
    ensures { IfOk result (λ out. out.items ≡ lines_text (image_header ∷ lines_for (lines_of text.now))) }
{
    let labels = labels_of(alloc, text)?;
    let mut out = Vec::new(alloc);
    push_bytes(&mut out, b"kimg 1\r\n")?;
    push_lines(&mut out, &labels, text)?;
    Ok(out)
}

/// Appends the lines that stand for those of a text.
fn push_lines(out: &mut Vec<u8>, labels: &Labels, text: &[u8]) -> Result<(), OutOfMemory>
    ensures { OnOk result (out.new.items ≡ out.old.items ++ lines_text (image_lines (table_labels labels.now) 2 None (lines_of text.now))) }
{
    let mut number = 2;
    let mut place = None;
    let mut left = text;
    while let Some((line, rest)) = next_line(left) {
        push_line(out, labels, number, place, line)?;
        place = place_after(place, line);
        number += 1;
        left = rest;
    }
    Ok(())
}

/// Appends the line that stands for a line, with its end.
#[tactic(auto, unfolding(crate::specs::Reading::image_line))]
fn push_line(
    out: &mut Vec<u8>,
    labels: &Labels,
    number: u64,
    place: Option<u64>,
    line: &[u8],
) -> Result<(), OutOfMemory>
    ensures { OnOk result (out.new.items ≡ out.old.items ++ (image_line (table_labels labels.now) number place line.now ++ (13 ∷ 10 ∷ []))) }
{
    match kind_of(line) {
        LineKind::Label => {
            if !is_first(labels, number, line) {
                push_bytes(out, line)?;
            }
        }
        LineKind::Instruction => {
            let word = word_at(*out.allocator(), labels, place, line)?;
            push_word(out, word, line)?;
        }
        _ => push_bytes(out, line)?,
    }
    push_bytes(out, b"\r\n")?;
    Ok(())
}

/// Whether a label's line is the first that gives its name.
fn is_first(labels: &Labels, number: u64, line: &[u8]) -> bool
    ensures { result ≡ is_first (table_labels labels.now) number (label_of (words_of line.now)) }
{
    match label_of(line) {
        Some(name) => is_given_at(labels, name, number),
        None => false,
    }
}

/// Appends the line that puts the word, or the line itself where there is none.
fn push_word(out: &mut Vec<u8>, word: Option<u32>, line: &[u8]) -> Result<(), OutOfMemory>
    ensures { OnOk result (out.new.items ≡ out.old.items ++ word_line word line.now) }
{
    match word {
        Some(word) => {
            push_bytes(out, b"w ")?;
            push_dec(out, u64::from(word))?;
        }
        None => push_bytes(out, line)?,
    }
    Ok(())
}
