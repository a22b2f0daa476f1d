//! The labels of a source by their names.

ghost use Rattle.std.specs.Prelude.{◌≡◌, IfOk, OnOk};
ghost use Rattle.std.specs.Option.{option_copied};
ghost use Rattle.mach_base.specs.Lines.{lines_of, words_of};
ghost use Rattle.asm_text.specs.Kinds.{label_of};
ghost use Rattle.asm_text.specs.Labels.{given, is_given_at, labels_of, table_labels, with_label, with_line};

use crate::kind::label_of;
use crate::place::place_after;
use indexmap::IndexMap;
use mach_base::{OutOfMemory, next_line};
use std::alloc::Global;

/// The line that gives a name first, and the address that the name means.
#[derive(Clone, Copy, Debug, PartialEq, Eq)]
pub struct Given {
    pub line: u64,
    pub address: u64,
}

/// Where each name is given.
pub type Labels = IndexMap<Vec<u8>, Given>;

/// The labels of the lines from a source's second on.
pub fn labels_of(alloc: Global, text: &[u8]) -> Result<Labels, OutOfMemory>
    ensures { IfOk result (λ labels. table_labels labels ≡ labels_of (lines_of text.now)) }
{
    let mut labels = IndexMap::new(alloc);
    let mut number = 2;
    let mut place = None;
    let mut left = text;
    while let Some((line, rest)) = next_line(left) {
        note_line(alloc, &mut labels, number, place, line)?;
        place = place_after(place, line);
        number += 1;
        left = rest;
    }
    Ok(labels)
}

/// Notes the label of a line, if it is one and a segment has begun.
fn note_line(
    alloc: Global,
    labels: &mut Labels,
    number: u64,
    place: Option<u64>,
    line: &[u8],
) -> Result<(), OutOfMemory>
    ensures { OnOk result (table_labels labels.new ≡ with_line (table_labels labels.old) number place (label_of (words_of line.now))) }
{
    let Some(address) = place else {
        return Ok(());
    };
    let Some(name) = label_of(line) else {
        return Ok(());
    };
    let line = number;
    note(alloc, labels, name, Given { line, address })?;
    Ok(())
}

/// Notes where a name is given, if it is the first time.
fn note(alloc: Global, labels: &mut Labels, name: &[u8], there: Given) -> Result<(), OutOfMemory>
    ensures { OnOk result (table_labels labels.new ≡ with_label (table_labels labels.old) name.now there) }
{
    if where_given(labels, name).is_some() {
        return Ok(());
    }
    let name = Vec::from_slice(alloc, name)?;
    labels.insert(name, there)?;
    Ok(())
}

/// Where a name is given, if it is.
pub fn where_given(labels: &Labels, name: &[u8]) -> Option<Given>
    ensures { result ≡ given (table_labels labels.now) name.now }
{
    match labels.get(name) {
        Some(there) => Some(*there),
        None => None,
    }
}

/// Whether the line of this number is the first that gives the name.
pub fn is_given_at(labels: &Labels, name: &[u8], number: u64) -> bool
    ensures { result ≡ is_given_at (given (table_labels labels.now) name.now) number }
{
    match where_given(labels, name) {
        Some(there) => there.line == number,
        None => false,
    }
}
