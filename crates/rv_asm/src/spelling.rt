// The spelling of a word, appended to a text.

ghost use Rattle.std.specs.Prelude.{◌≡◌, ◌<◌, ◌^◌, false, ◌++◌, codes, OnOk, OnErr};
ghost use Rattle.hart_ctx.specs.RegisterName.{name_of};
ghost use Rattle.hart_ctx.specs.declared.register_name.RegName.TheVariants.{X};
ghost use Rattle.std.specs.Fmt.{digits, signed_decimal};
ghost use Rattle.rv_decode.specs.Instruction.{fields_of};
ghost use Rattle.rv_asm.specs.Spelling.{upper_bits, part_text, parts_text, operands_text, order_text, instruction_text, data_text, insn_text};

use crate::parts::{Part, parts_of};
use hart_ctx::{RegName, reg_name};
use mach_base::{OutOfMemory, push_bytes, push_dec, push_hex};
use rv_decode::{Insn, decode};
use rv_table::op_name;

/// Appends the spelling of a word: the instruction that it is, as `addi a0, zero, 5`, or `.word 0x` and eight digits.
/// docs/machine.md has the forms. A refusal leaves `out` as it was.
pub fn push_insn(out: &mut Vec<u8>, word: u32) -> Result<(), OutOfMemory>
    ensures ok { OnOk result (out.new.items ≡ out.old.items ++ insn_text word) }
    ensures err { OnErr result (out.new.items ≡ out.old.items) }
{
    let mut text = Vec::new(*out.allocator());
    push_spelling(&mut text, word)?;
    push_bytes(out, text.as_slice())?;
    Ok(())
}

#[tactic(auto, unfolding(crate::specs::Spelling::insn_text, crate::specs::Spelling::data_text))]
fn push_spelling(out: &mut Vec<u8>, word: u32) -> Result<(), OutOfMemory>
    ensures { OnOk result (out.new.items ≡ out.old.items ++ insn_text word) }
{
    match decode(word) {
        Some(insn) => push_instruction(out, insn)?,
        None => push_data(out, word)?,
    }
    Ok(())
}

#[tactic(auto, unfolding(crate::specs::Spelling::data_text))]
fn push_data(out: &mut Vec<u8>, word: u32) -> Result<(), OutOfMemory>
    ensures { OnOk result (out.new.items ≡ out.old.items ++ data_text word) }
{
    push_bytes(out, b".word 0x")?;
    push_hex(out, u64::from(word), 8)?;
    Ok(())
}

#[tactic(auto, unfolding(crate::specs::Spelling::instruction_text))]
fn push_instruction(out: &mut Vec<u8>, insn: Insn) -> Result<(), OutOfMemory>
    ensures { OnOk result (out.new.items ≡ out.old.items ++ instruction_text (fields_of insn)) }
{
    push_bytes(out, op_name(insn.op).as_bytes())?;
    push_bytes(out, order_text(insn.aq, insn.rl))?;
    push_operands(out, insn, parts_of(insn.op))?;
    Ok(())
}

/// How the ordering bits are written after the mnemonic.
pub(crate) fn order_text(aq: bool, rl: bool) -> &'static [u8]
    ensures { result.now ≡ order_text aq rl }
{
    match (aq, rl) {
        (true, true) => b".aqrl",
        (true, false) => b".aq",
        (false, true) => b".rl",
        (false, false) => b"",
    }
}

fn push_operands(out: &mut Vec<u8>, insn: Insn, parts: &[Part]) -> Result<(), OutOfMemory>
    ensures { OnOk result (out.new.items ≡ out.old.items ++ operands_text (fields_of insn) parts.now) }
{
    if parts.is_empty() {
        return Ok(());
    }
    push_bytes(out, b" ")?;
    push_parts(out, insn, parts)?;
    Ok(())
}

fn push_parts(out: &mut Vec<u8>, insn: Insn, parts: &[Part]) -> Result<(), OutOfMemory>
    ensures { OnOk result (out.new.items ≡ out.old.items ++ parts_text (fields_of insn) parts.now) }
{
    for part in parts {
        push_part(out, insn, *part)?;
    }
    Ok(())
}

#[tactic(auto, unfolding(crate::specs::Spelling::part_text))]
fn push_part(out: &mut Vec<u8>, insn: Insn, part: Part) -> Result<(), OutOfMemory>
    ensures { OnOk result (out.new.items ≡ out.old.items ++ part_text (fields_of insn) part) }
{
    match part {
        Part::Rd => push_bytes(out, register_name(insn.rd))?,
        Part::Rs1 => push_bytes(out, register_name(insn.rs1))?,
        Part::Rs2 => push_bytes(out, register_name(insn.rs2))?,
        Part::Imm => push_signed(out, insn.imm)?,
        Part::Upper => push_upper(out, upper_bits(insn))?,
        Part::Comma => push_bytes(out, b", ")?,
        Part::Open => push_bytes(out, b"(")?,
        Part::Close => push_bytes(out, b")")?,
    }
    Ok(())
}

/// The ABI name of a register.
pub(crate) fn register_name(number: u8) -> &'static [u8]
    requires { number < 32 }
    ensures { result.now ≡ name_of (X number) }
{
    reg_name(RegName::X(number)).as_bytes()
}

/// Bits 12 to 31 of an upper immediate.
pub(crate) fn upper_bits(insn: Insn) -> u32
    ensures value { result ≡ upper_bits (fields_of insn) }
    ensures bound { result < 2 ^ 20 }
{
    insn.imm.cast_unsigned() / 4096
}

fn push_signed(out: &mut Vec<u8>, number: i32) -> Result<(), OutOfMemory>
    ensures { OnOk result (out.new.items ≡ out.old.items ++ signed_decimal number) }
{
    if number < 0 {
        push_bytes(out, b"-")?;
    }
    push_dec(out, u64::from(number.unsigned_abs()))?;
    Ok(())
}

fn push_upper(out: &mut Vec<u8>, number: u32) -> Result<(), OutOfMemory>
    ensures { OnOk result (out.new.items ≡ out.old.items ++ (codes "0x" ++ digits 16 false number)) }
{
    push_bytes(out, b"0x")?;
    let digits = format!(in *out.allocator(); "{number:x}")?;
    push_bytes(out, digits.as_bytes())?;
    Ok(())
}
