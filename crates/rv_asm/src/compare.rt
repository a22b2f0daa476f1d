// Whether a line is the spelling of a word: the line is eaten from its head, part by part.

ghost use Rattle.std.specs.Prelude.{◌≡◌, ◌↔◌, ◌⊎◌, true, false, ◌<◌, ◌≤◌, [], ◌∷◌, ◌++◌, codes, MatchOption, None, Some, IsTrue};
ghost use Rattle.std.specs.Char.{digit_char};
ghost use Rattle.std.specs.Fmt.{digits, signed_decimal};
ghost use Rattle.mach_base.specs.Number.{hex_text};
ghost use Rattle.rv_decode.specs.Instruction.{fields_of};
ghost use Rattle.rv_asm.specs.Rest.{after};
ghost use Rattle.rv_asm.specs.Spelling.{part_text, parts_text, operands_text, instruction_text, data_text, insn_text};

use crate::parts::{Part, parts_of};
use crate::spelling::{order_text, register_name, upper_bits};
use rv_decode::{Insn, decode};
use rv_table::op_name;

/// Whether the line is the spelling of the word.
pub(crate) fn is_spelling(word: u32, line: &[u8]) -> bool
    ensures { (result ≡ true) ↔ (line.now ≡ insn_text word) }
{
    match after_spelling(word, line) {
        Some(rest) => rest.is_empty(),
        None => false,
    }
}

#[tactic(auto, unfolding(crate::specs::Spelling::insn_text))]
fn after_spelling<'a>(word: u32, line: &'a [u8]) -> Option<&'a [u8]>
    ensures { MatchOption result (after (insn_text word) line.now ≡ None) (λ rest. after (insn_text word) line.now ≡ Some rest.now) }
{
    match decode(word) {
        Some(insn) => after_instruction(insn, line),
        None => after_data(word, line),
    }
}

#[tactic(auto, unfolding(crate::specs::Spelling::data_text))]
fn after_data<'a>(word: u32, line: &'a [u8]) -> Option<&'a [u8]>
    ensures { MatchOption result (after (data_text word) line.now ≡ None) (λ rest. after (data_text word) line.now ≡ Some rest.now) }
{
    let rest = after(b".word 0x", line)?;
    after_hex(word, 8, rest)
}

#[tactic(auto, unfolding(crate::specs::Spelling::instruction_text))]
fn after_instruction<'a>(insn: Insn, line: &'a [u8]) -> Option<&'a [u8]>
    ensures { MatchOption result (after (instruction_text (fields_of insn)) line.now ≡ None) (λ rest. after (instruction_text (fields_of insn)) line.now ≡ Some rest.now) }
{
    let rest = after(op_name(insn.op).as_bytes(), line)?;
    let rest = after(order_text(insn.aq, insn.rl), rest)?;
    after_operands(insn, parts_of(insn.op), rest)
}

fn after_operands<'a>(insn: Insn, parts: &[Part], line: &'a [u8]) -> Option<&'a [u8]>
    ensures { MatchOption result (after (operands_text (fields_of insn) parts.now) line.now ≡ None) (λ rest. after (operands_text (fields_of insn) parts.now) line.now ≡ Some rest.now) }
{
    if parts.is_empty() {
        return Some(line);
    }
    let rest = after(b" ", line)?;
    after_parts(insn, parts, rest)
}

fn after_parts<'a>(insn: Insn, parts: &[Part], line: &'a [u8]) -> Option<&'a [u8]>
    ensures { MatchOption result (after (parts_text (fields_of insn) parts.now) line.now ≡ None) (λ rest. after (parts_text (fields_of insn) parts.now) line.now ≡ Some rest.now) }
{
    let mut rest = line;
    for part in parts {
        match after_part(insn, *part, rest) {
            Some(more) => rest = more,
            None => return None,
        }
    }
    Some(rest)
}

#[tactic(auto, unfolding(crate::specs::Spelling::part_text))]
fn after_part<'a>(insn: Insn, part: Part, line: &'a [u8]) -> Option<&'a [u8]>
    ensures { MatchOption result (after (part_text (fields_of insn) part) line.now ≡ None) (λ rest. after (part_text (fields_of insn) part) line.now ≡ Some rest.now) }
{
    match part {
        Part::Rd => after(register_name(insn.rd), line),
        Part::Rs1 => after(register_name(insn.rs1), line),
        Part::Rs2 => after(register_name(insn.rs2), line),
        Part::Imm => after_signed(insn.imm, line),
        Part::Upper => after_upper(upper_bits(insn), line),
        Part::Comma => after(b", ", line),
        Part::Open => after(b"(", line),
        Part::Close => after(b")", line),
    }
}

fn after_signed<'a>(number: i32, line: &'a [u8]) -> Option<&'a [u8]>
    ensures { MatchOption result (after (signed_decimal number) line.now ≡ None) (λ rest. after (signed_decimal number) line.now ≡ Some rest.now) }
{
    if number < 0 {
        let rest = after(b"-", line)?;
        return after_digits(number.unsigned_abs(), 10, rest);
    }
    after_digits(number.unsigned_abs(), 10, line)
}

/// The digits in the radix, 10 or 16, without leading zeros.
fn after_digits<'a>(number: u32, radix: u32, line: &'a [u8]) -> Option<&'a [u8]>
    requires { (radix ≡ 10) ⊎ (radix ≡ 16) }
    ensures { MatchOption result (after (digits radix false number) line.now ≡ None) (λ rest. after (digits radix false number) line.now ≡ Some rest.now) }
{
    if number < radix {
        return after_digit(number, line);
    }
    let rest = after_digits(number / radix, radix, line)?;
    after_digit(number % radix, rest)
}

fn after_upper<'a>(number: u32, line: &'a [u8]) -> Option<&'a [u8]>
    ensures { MatchOption result (after (codes "0x" ++ digits 16 false number) line.now ≡ None) (λ rest. after (codes "0x" ++ digits 16 false number) line.now ≡ Some rest.now) }
{
    let rest = after(b"0x", line)?;
    after_digits(number, 16, rest)
}

/// So many hexadecimal digits.
fn after_hex<'a>(number: u32, digits: u8, text: &'a [u8]) -> Option<&'a [u8]>
    ensures { MatchOption result (after (hex_text digits number) text.now ≡ None) (λ rest. after (hex_text digits number) text.now ≡ Some rest.now) }
{
    if digits == 0 {
        return Some(text);
    }
    let rest = after_hex(number / 16, digits - 1, text)?;
    after_digit(number % 16, rest)
}

/// One digit.
fn after_digit<'a>(digit: u32, line: &'a [u8]) -> Option<&'a [u8]>
    requires { digit < 16 }
    ensures { MatchOption result (after (digit_char digit ∷ []) line.now ≡ None) (λ rest. after (digit_char digit ∷ []) line.now ≡ Some rest.now) }
{
    match line {
        [first, rest @ ..] if *first == digit_char(digit) => Some(rest),
        _ => None,
    }
}

fn digit_char(digit: u32) -> u8
    requires { digit < 16 }
    ensures { result ≡ digit_char digit }
{
    if digit < 10 {
        b'0' + digit as u8
    } else {
        b'a' + (digit - 10) as u8
    }
}

/// What follows the text, if the line begins with it.
fn after<'a>(text: &[u8], line: &'a [u8]) -> Option<&'a [u8]>
    ensures { MatchOption result (after text.now line.now ≡ None) (λ rest. after text.now line.now ≡ Some rest.now) }
{
    line.strip_prefix(text)
}
