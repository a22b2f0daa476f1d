//! The word that an instruction of a source means.

ghost use Rattle.std.specs.Prelude.{◌≡◌, ◌≤◌, take, drop, length, IfOk, OnOk, ◌++◌};
ghost use Rattle.asm_text.specs.Labels.{given, table_labels};
ghost use Rattle.asm_text.specs.Instructions.{distance_text, goes, has_distance, if_goes, last_split, trimmed, word_at, word_of, word_towards, word_with_name};
ghost use Rattle.rv_decode.specs.Fields.{decoded};

use crate::labels::{Given, Labels, where_given};
use mach_base::{OutOfMemory, is_blank, push_bytes, push_dec};
use rv_asm::assemble_line;
use rv_decode::decode;
use rv_table::Form;
use std::alloc::Global;

/// The word of an instruction's line at its place, if it means one there.
#[tactic(auto, unfolding(crate::specs::Instructions::word_at))]
pub fn word_at(
    alloc: Global,
    labels: &Labels,
    place: Option<u64>,
    line: &[u8],
) -> Result<Option<u32>, OutOfMemory>
    ensures { IfOk result (λ word. word ≡ word_at (table_labels labels.now) place (trimmed line.now)) }
{
    let line = trimmed(line);
    if let Some(word) = word_of(line) {
        return Ok(Some(word));
    }
    word_with_name(alloc, labels, place, line)
}

/// The word whose spelling the line is.
fn word_of(line: &[u8]) -> Option<u32>
    ensures { result ≡ word_of line.now }
{
    match assemble_line(line) {
        Some(word) => Some(word),
        None => None,
    }
}

/// The word of a jump or a branch to the name that is the line's last word.
fn word_with_name(
    alloc: Global,
    labels: &Labels,
    place: Option<u64>,
    line: &[u8],
) -> Result<Option<u32>, OutOfMemory>
    ensures { IfOk result (λ word. word ≡ word_with_name (table_labels labels.now) place (last_split line.now)) }
{
    let Some(place) = place else {
        return Ok(None);
    };
    let (front, name) = line.split_at(last_word_start(line));
    match where_given(labels, name) {
        Some(there) => word_towards(alloc, place, there, front),
        None => Ok(None),
    }
}

/// The word of a jump or a branch, by the text before the distance.
fn word_towards(
    alloc: Global,
    place: u64,
    there: Given,
    front: &[u8],
) -> Result<Option<u32>, OutOfMemory>
    ensures { IfOk result (λ word. word ≡ if_goes (word_of (front.now ++ distance_text place there.address))) }
{
    let mut text = Vec::from_slice(alloc, front)?;
    push_distance(&mut text, place, there.address)?;
    let Some(word) = word_of(text.as_slice()) else {
        return Ok(None);
    };
    if goes(word) { Ok(Some(word)) } else { Ok(None) }
}

/// Whether the word is a jump or a branch.
fn goes(word: u32) -> bool
    ensures { result ≡ goes (decoded word) }
{
    match decode(word) {
        Some(insn) => has_distance(insn.op.row().form),
        None => false,
    }
}

fn has_distance(form: Form) -> bool
    ensures { result ≡ has_distance form }
{
    matches!(form, Form::J | Form::B)
}

/// Appends the distance from one address to another.
fn push_distance(out: &mut Vec<u8>, from: u64, to: u64) -> Result<(), OutOfMemory>
    ensures { OnOk result (out.new.items ≡ out.old.items ++ distance_text from to) }
{
    if to < from {
        push_bytes(out, b"-")?;
        push_dec(out, from - to)?;
    } else {
        push_dec(out, to - from)?;
    }
    Ok(())
}

/// Where the last word of a line starts: after its last blank.
fn last_word_start(line: &[u8]) -> usize
    ensures within { result ≤ length line.now }
    ensures split { last_split line.now ≡ (take result line.now, drop result line.now) }
{
    let mut left = line;
    while let Some((last, front)) = left.split_last() {
        if *last == b' ' {
            return left.len();
        }
        left = front;
    }
    0
}

/// The line without the blanks and tabs at its head.
fn trimmed(line: &[u8]) -> &[u8]
    ensures { result.now ≡ trimmed line.now }
{
    let mut left = line;
    while let Some((first, rest)) = left.split_first() {
        if !is_blank(*first) {
            return left;
        }
        left = rest;
    }
    left
}
