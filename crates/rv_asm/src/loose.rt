// What a line may mean: read loosely, since the caller writes the word again and compares.

ghost use Rattle.std.specs.Prelude.{◌≡◌, ℕ, not, ◌&&◌, ◌<◌, ◌≤◌, ◌⊎◌, length, take, drop, Some, None, MatchOption};
ghost use Rattle.std.specs.Char.{digit_value};
ghost use Rattle.rv_table.specs.Rows.{row_for};
ghost use Rattle.rv_table.specs.Mnemonics.{op_named};
ghost use Rattle.rv_decode.specs.Fields.{has_rd, has_rs1, has_rs2, has_order, fits_immediate, fits_form};
ghost use Rattle.rv_asm.specs.Meant.{is_mark, word_len, value_of, register_meant, number_meant, upper_meant, with_part, part_len, operands_meant, with_order, named, no_operands, HasRegisters, fields_meant, word_if_fits, instruction_meant, word_meant};

use crate::parts::{Part, parts_of};
use hart_ctx::{RegName, reg_of};
use rv_decode::{Insn, encode};
use rv_table::{Form, Op, op_named};

/// What was read of an instruction's operands; 0 where nothing was.
#[derive(Clone, Copy, PartialEq, Eq, Debug)]
pub(crate) struct Operands {
    rd: u8,
    rs1: u8,
    rs2: u8,
    imm: i32,
}

/// The word that a line may spell: data, or an instruction.
#[tactic(auto, unfolding(crate::specs::Meant::word_meant))]
pub(crate) fn word_meant(line: &[u8]) -> Option<u32>
    ensures { result ≡ word_meant line.now }
{
    let len = word_len(line);
    let name = front(line, len);
    if name == b".word".as_slice() {
        return Some(value_of(back(line, len + 3), 16));
    }
    instruction_meant(name, back(line, len + 1))
}

/// The word of an instruction by its name and its operands.
fn instruction_meant(name: &[u8], text: &[u8]) -> Option<u32>
    ensures { result ≡ instruction_meant name.now text.now }
{
    let (op, aq, rl) = named(name)?;
    let operands = operands_meant(parts_of(op), text);
    word_if_fits(op, aq, rl, operands)
}

/// The operation and the ordering bits of a name.
#[tactic(auto, unfolding(crate::specs::Meant::named))]
fn named(name: &[u8]) -> Option<(Op, bool, bool)>
    ensures { result ≡ named name.now }
{
    if name.ends_with(b".aqrl") {
        return with_order(true, true, front(name, name.len().saturating_sub(5)));
    }
    if name.ends_with(b".aq") {
        return with_order(true, false, front(name, name.len().saturating_sub(3)));
    }
    if name.ends_with(b".rl") {
        return with_order(false, true, front(name, name.len().saturating_sub(3)));
    }
    with_order(false, false, name)
}

fn with_order(aq: bool, rl: bool, name: &[u8]) -> Option<(Op, bool, bool)>
    ensures { result ≡ with_order aq rl (op_named name.now) }
{
    Some((op_named(name)?, aq, rl))
}

/// The operands of parts that stand one after the other.
fn operands_meant(parts: &[Part], text: &[u8]) -> Operands
    ensures value { result ≡ operands_meant parts.now text.now no_operands }
    ensures registers { HasRegisters result }
{
    let mut rest = text;
    let mut operands = Operands {
        rd: 0,
        rs1: 0,
        rs2: 0,
        imm: 0,
    };
    for part in parts {
        let len = part_len(*part, rest);
        operands = with_part(*part, front(rest, len), operands);
        rest = back(rest, len);
    }
    operands
}

/// How many bytes of the text the part takes.
#[tactic(auto, unfolding(crate::specs::Meant::part_len))]
fn part_len(part: Part, text: &[u8]) -> usize
    ensures { result ≡ part_len part text.now }
{
    match part {
        Part::Comma => 2,
        Part::Open | Part::Close => 1,
        Part::Rd | Part::Rs1 | Part::Rs2 | Part::Imm | Part::Upper => word_len(text),
    }
}

/// The operands where the text stands for the part.
#[tactic(auto, unfolding(crate::specs::Meant::with_part))]
fn with_part(part: Part, text: &[u8], operands: Operands) -> Operands
    requires { HasRegisters operands }
    ensures value { result ≡ with_part part text.now operands }
    ensures registers { HasRegisters result }
{
    let mut more = operands;
    match part {
        Part::Rd => more.rd = register_meant(text),
        Part::Rs1 => more.rs1 = register_meant(text),
        Part::Rs2 => more.rs2 = register_meant(text),
        Part::Imm => more.imm = number_meant(text),
        Part::Upper => more.imm = upper_meant(text),
        Part::Comma | Part::Open | Part::Close => {}
    }
    more
}

fn register_meant(name: &[u8]) -> u8
    ensures value { result ≡ register_meant name.now }
    ensures register { result < 32 }
{
    match reg_of(name) {
        Ok(RegName::X(number)) => number,
        _ => 0,
    }
}

#[tactic(auto, unfolding(crate::specs::Meant::number_meant))]
fn number_meant(text: &[u8]) -> i32
    ensures { result ≡ number_meant text.now }
{
    match text {
        [] => 0,
        [b'-', digits @ ..] => -((value_of(digits, 10) % 0x8000_0000) as i32),
        digits => (value_of(digits, 10) % 0x8000_0000) as i32,
    }
}

#[tactic(auto, unfolding(crate::specs::Meant::upper_meant))]
fn upper_meant(text: &[u8]) -> i32
    ensures { result ≡ upper_meant text.now }
{
    ((value_of(back(text, 2), 16) % 0x10_0000) * 4096).cast_signed()
}

/// The number that digits write, modulo 2^32.
fn value_of(text: &[u8], radix: u8) -> u32
    requires { (radix ≡ 10) ⊎ (radix ≡ 16) }
    ensures { result ≡ value_of radix text.now }
{
    let mut value: u64 = 0;
    for byte in text {
        value = (value * u64::from(radix) + u64::from(digit_value(*byte))) % 0x1_0000_0000;
    }
    value as u32
}

fn digit_value(byte: u8) -> u8
    ensures value { result ≡ digit_value byte }
    ensures bound { result ≤ 36 }
{
    match char::from(byte).to_digit(36) {
        Some(digit) => digit as u8,
        None => 36,
    }
}

/// How long the word at the head of a text is.
#[tactic(auto, unfolding(crate::specs::Meant::word_len))]
fn word_len(text: &[u8]) -> usize
    ensures value { result ≡ word_len text.now }
    ensures within { result ≤ length text.now }
{
    let mut len = 0;
    for byte in text {
        if is_mark(*byte) {
            return len;
        }
        len += 1;
    }
    len
}

/// Whether the byte ends a word.
fn is_mark(byte: u8) -> bool
    ensures { result ≡ is_mark byte }
{
    matches!(byte, b' ' | b',' | b'(' | b')')
}

/// The first bytes, so many or all.
fn front(text: &[u8], len: usize) -> &[u8]
    ensures { result.now ≡ take len text.now }
{
    if len < text.len() { &text[..len] } else { text }
}

/// The bytes after the first ones.
fn back(text: &[u8], len: usize) -> &[u8]
    ensures { result.now ≡ drop len text.now }
{
    if len < text.len() { &text[len..] } else { &[] }
}

/// The word of an operation with these fields, if they fit its form.
fn word_if_fits(op: Op, aq: bool, rl: bool, operands: Operands) -> Option<u32>
    requires { HasRegisters operands }
    ensures { result ≡ word_if_fits (fields_meant (op, aq, rl) operands) }
{
    if !fits(op.row().form, aq, rl, operands) {
        return None;
    }
    Some(encode(Insn {
        op,
        rd: operands.rd,
        rs1: operands.rs1,
        rs2: operands.rs2,
        imm: operands.imm,
        aq,
        rl,
    }))
}

/// Whether the fields that the form lacks are 0 or false, and the immediate is in its range.
fn fits(form: Form, aq: bool, rl: bool, operands: Operands) -> bool
    ensures { result ≡ fits_form form operands.rd operands.rs1 operands.rs2 operands.imm aq rl }
{
    (has_rd(form) || operands.rd == 0)
        && (has_rs1(form) || operands.rs1 == 0)
        && (has_rs2(form) || operands.rs2 == 0)
        && (has_order(form) || no_order(aq, rl))
        && fits_immediate(form, operands.imm)
}

fn no_order(aq: bool, rl: bool) -> bool
    ensures { result ≡ (not aq && not rl) }
{
    !aq && !rl
}

#[tactic(auto, unfolding(rv_decode::specs::Fields::has_rd))]
fn has_rd(form: Form) -> bool
    ensures { result ≡ has_rd form }
{
    !matches!(form, Form::B | Form::S | Form::Sys)
}

#[tactic(auto, unfolding(rv_decode::specs::Fields::has_rs1))]
fn has_rs1(form: Form) -> bool
    ensures { result ≡ has_rs1 form }
{
    !matches!(form, Form::U | Form::J | Form::Sys)
}

#[tactic(auto, unfolding(rv_decode::specs::Fields::has_rs2))]
fn has_rs2(form: Form) -> bool
    ensures { result ≡ has_rs2 form }
{
    matches!(form, Form::B | Form::S | Form::R | Form::Amo)
}

#[tactic(auto, unfolding(rv_decode::specs::Fields::has_order))]
fn has_order(form: Form) -> bool
    ensures { result ≡ has_order form }
{
    matches!(form, Form::Lr | Form::Amo)
}

/// Whether an immediate is in the range of the form.
#[tactic(auto, unfolding(rv_decode::specs::Fields::fits_immediate))]
fn fits_immediate(form: Form, imm: i32) -> bool
    ensures { result ≡ fits_immediate form imm }
{
    match form {
        Form::U => imm.cast_unsigned() % 4096 == 0,
        Form::J => (-0x10_0000..0x10_0000).contains(&imm) && imm.cast_unsigned() % 2 == 0,
        Form::I | Form::S => (-0x800..0x800).contains(&imm),
        Form::Fence => (0..0x1000).contains(&imm),
        Form::B => (-0x1000..0x1000).contains(&imm) && imm.cast_unsigned() % 2 == 0,
        Form::Shift6 => (0..64).contains(&imm),
        Form::Shift5 => (0..32).contains(&imm),
        Form::R | Form::Lr | Form::Amo | Form::Sys => imm == 0,
    }
}
