// The operations on registers and immediates.

ghost use Rattle.std.specs.Prelude.{◌≡◌, IsTrue};
ghost use Rattle.rv_alu.specs.Results.{is_alu, alu_result};

use crate::division::{
    divide, divide_unsigned, divide_word, divide_word_unsigned, high_mixed, high_signed,
    high_unsigned, left_over, left_over_unsigned, left_over_word, left_over_word_unsigned,
};
use crate::word::{extended, low_word};
use rv_table::Op;

/// What the operation puts into rd. `a` is rs1; `b` is rs2, or the immediate, sign-extended to 64 bits. The operations
/// are those of the R form and `addi`, `slti`, `sltiu`, `xori`, `ori`, `andi`, `addiw`, `slli`, `srli`, `srai`, `slliw`,
/// `srliw`, `sraiw`. Those on a word read the low 32 bits of both operands and sign-extend their result.
#[tactic(auto, unfolding(crate::specs::Results::is_alu, crate::specs::Results::alu_result))]
pub fn alu(op: Op, a: u64, b: u64) -> u64
    requires { IsTrue (is_alu op) }
    ensures { result ≡ alu_result op a b }
{
    match op {
        Op::Add | Op::Addi => a.wrapping_add(b),
        Op::Sub => a.wrapping_sub(b),
        Op::Sll | Op::Slli => a << (b % 64),
        Op::Slt | Op::Slti => (a.cast_signed() < b.cast_signed()) as u64,
        Op::Sltu | Op::Sltiu => (a < b) as u64,
        Op::Xor | Op::Xori => a ^ b,
        Op::Srl | Op::Srli => a >> (b % 64),
        Op::Sra | Op::Srai => (a.cast_signed() >> (b % 64)).cast_unsigned(),
        Op::Or | Op::Ori => a | b,
        Op::And | Op::Andi => a & b,
        Op::Mul => a.wrapping_mul(b),
        Op::Mulh => high_signed(a, b),
        Op::Mulhsu => high_mixed(a, b),
        Op::Mulhu => high_unsigned(a, b),
        Op::Div => divide(a, b),
        Op::Divu => divide_unsigned(a, b),
        Op::Rem => left_over(a, b),
        Op::Remu => left_over_unsigned(a, b),
        Op::Addw | Op::Addiw => extended(low_word(a).wrapping_add(low_word(b))),
        Op::Subw => extended(low_word(a).wrapping_sub(low_word(b))),
        Op::Sllw | Op::Slliw => extended(low_word(a) << (low_word(b) % 32)),
        Op::Srlw | Op::Srliw => extended(low_word(a) >> (low_word(b) % 32)),
        Op::Sraw | Op::Sraiw => extended(
            (low_word(a).cast_signed() >> (low_word(b) % 32)).cast_unsigned(),
        ),
        Op::Mulw => extended(low_word(a).wrapping_mul(low_word(b))),
        Op::Divw => extended(divide_word(low_word(a), low_word(b))),
        Op::Divuw => extended(divide_word_unsigned(low_word(a), low_word(b))),
        Op::Remw => extended(left_over_word(low_word(a), low_word(b))),
        Op::Remuw => extended(left_over_word_unsigned(low_word(a), low_word(b))),
        _ => unreachable!(),
    }
}
