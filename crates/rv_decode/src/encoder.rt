// From instructions to words.

ghost use Rattle.std.specs.Prelude.{◌≡◌, Some};
ghost use Rattle.rv_decode.specs.Encoding.{immediate_bits, encoded};
ghost use Rattle.rv_decode.specs.Fields.{decoded};
ghost use Rattle.rv_decode.specs.Instruction.{fields_of};

use crate::insn::Insn;
use crate::pieces::moved_bits;
use rv_table::Form;

/// The word of the instruction: the one that `decode` reads as it.
pub fn encode(insn: Insn) -> u32
    ensures value { result ≡ encoded (fields_of insn) }
    ensures decodes { decoded result ≡ Some (fields_of insn) }
{
    let row = insn.op.row();
    let registers = insn.rd as u64 * 0x80 + insn.rs1 as u64 * 0x8000 + insn.rs2 as u64 * 0x100000;
    let order = insn.aq as u64 * 0x4000000 + insn.rl as u64 * 0x2000000;
    let immediate = immediate_bits(row.form, insn.imm.cast_unsigned());
    (row.value as u64 + registers + order + immediate as u64) as u32
}

// The bits that an immediate has in a word of the form.
#[tactic(auto, unfolding(crate::specs::Encoding::immediate_bits))]
fn immediate_bits(form: Form, pattern: u32) -> u32
    ensures { result ≡ immediate_bits form pattern }
{
    match form {
        Form::U => moved_bits(pattern, 12, 20, 12),
        Form::J => {
            let high = moved_bits(pattern, 20, 1, 31) + moved_bits(pattern, 1, 10, 21);
            high + moved_bits(pattern, 11, 1, 20) + moved_bits(pattern, 12, 8, 12)
        }
        Form::I | Form::Fence => moved_bits(pattern, 0, 12, 20),
        Form::B => {
            let high = moved_bits(pattern, 12, 1, 31) + moved_bits(pattern, 5, 6, 25);
            high + moved_bits(pattern, 1, 4, 8) + moved_bits(pattern, 11, 1, 7)
        }
        Form::S => moved_bits(pattern, 5, 7, 25) + moved_bits(pattern, 0, 5, 7),
        Form::Shift6 => moved_bits(pattern, 0, 6, 20),
        Form::Shift5 => moved_bits(pattern, 0, 5, 20),
        Form::R | Form::Lr | Form::Amo | Form::Sys => 0,
    }
}
