// From words to instructions.

ghost use Rattle.std.specs.Prelude.{◌≡◌, ◌<◌, ◌&&◌, if◌then◌else◌, IfSome};
ghost use Rattle.std.specs.Option.{option_map};
ghost use Rattle.rv_table.specs.Rows.{row_for};
ghost use Rattle.rv_decode.specs.Bits.{bits_at, flag_at};
ghost use Rattle.rv_decode.specs.Encoding.{encoded};
ghost use Rattle.rv_decode.specs.Fields.{has_rd, has_rs1, has_rs2, has_order, immediate, fields_in, decoded};
ghost use Rattle.rv_decode.specs.Instruction.{fields_of};

use crate::insn::Insn;
use crate::pieces::{bits, sign_extended};
use rv_table::{Form, Op, find};

/// The instruction that the word is; `None` exactly where no row of the instruction table matches it. The word is
/// the one that `encode` gives for the instruction.
pub fn decode(word: u32) -> Option<Insn>
    ensures value { option_map fields_of result ≡ decoded word }
    ensures encodes { IfSome result (λ i. encoded (fields_of i) ≡ word) }
{
    let Some(row) = find(word) else {
        return None;
    };
    Some(read(row.op, row.form, word))
}

// The fields of a word of the operation's form.
#[tactic(auto, unfolding(crate::specs::Fields::fields_in))]
fn read(op: Op, form: Form, word: u32) -> Insn
    requires { form ≡ (row_for op).form }
    ensures { fields_of result ≡ fields_in form op word }
{
    Insn {
        op,
        rd: register(has_rd(form), word, 7),
        rs1: register(has_rs1(form), word, 15),
        rs2: register(has_rs2(form), word, 20),
        imm: immediate(form, word),
        aq: flag(has_order(form), word, 26),
        rl: flag(has_order(form), word, 25),
    }
}

// The register whose number is in the bits from bit `low` up, or 0 where the form has none there.
fn register(has: bool, word: u32, low: u32) -> u8
    requires { low < 32 }
    ensures value { result ≡ if has then bits_at word low 5 else 0 }
    ensures is_register { result < 32 }
{
    if has { bits(word, low, 5) as u8 } else { 0 }
}

// The bit at a place, or false where the form has none there.
fn flag(has: bool, word: u32, at: u32) -> bool
    requires { at < 32 }
    ensures { result ≡ (has && flag_at word at) }
{
    has && bits(word, at, 1) == 1
}

// The immediate of a word of the form, 0 where the form has none.
#[tactic(auto, unfolding(crate::specs::Fields::immediate))]
fn immediate(form: Form, word: u32) -> i32
    ensures { result ≡ immediate form word }
{
    match form {
        Form::U => (word - word % 4096).cast_signed(),
        Form::J => {
            let low = bits(word, 20, 1) * 0x800 + bits(word, 21, 10) * 2;
            sign_extended(
                bits(word, 31, 1) * 0x100000 + bits(word, 12, 8) * 0x1000 + low,
                0x100000,
            )
        }
        Form::I => sign_extended(bits(word, 20, 12), 0x800),
        Form::Fence => bits(word, 20, 12) as i32,
        Form::B => {
            let low = bits(word, 25, 6) * 0x20 + bits(word, 8, 4) * 2;
            sign_extended(
                bits(word, 31, 1) * 0x1000 + bits(word, 7, 1) * 0x800 + low,
                0x1000,
            )
        }
        Form::S => sign_extended(bits(word, 25, 7) * 0x20 + bits(word, 7, 5), 0x800),
        Form::Shift6 => bits(word, 20, 6) as i32,
        Form::Shift5 => bits(word, 20, 5) as i32,
        Form::R | Form::Lr | Form::Amo | Form::Sys => 0,
    }
}

#[tactic(auto, unfolding(crate::specs::Fields::has_rd))]
fn has_rd(form: Form) -> bool
    ensures { result ≡ has_rd form }
{
    !matches!(form, Form::B | Form::S | Form::Sys)
}

#[tactic(auto, unfolding(crate::specs::Fields::has_rs1))]
fn has_rs1(form: Form) -> bool
    ensures { result ≡ has_rs1 form }
{
    !matches!(form, Form::U | Form::J | Form::Sys)
}

#[tactic(auto, unfolding(crate::specs::Fields::has_rs2))]
fn has_rs2(form: Form) -> bool
    ensures { result ≡ has_rs2 form }
{
    matches!(form, Form::B | Form::S | Form::R | Form::Amo)
}

#[tactic(auto, unfolding(crate::specs::Fields::has_order))]
fn has_order(form: Form) -> bool
    ensures { result ≡ has_order form }
{
    matches!(form, Form::Lr | Form::Amo)
}
