// The classes of operations.

ghost use Rattle.std.specs.Prelude.{◌≡◌};
ghost use Rattle.rv_alu.specs.Results.{is_alu, is_branch, is_amo};

use rv_table::Op;

/// Whether `alu` has a result for the operation: the R form and the arithmetic on immediates, but `lui` and `auipc`.
#[tactic(auto, unfolding(crate::specs::Results::is_alu))]
pub fn is_alu(op: Op) -> bool
    ensures { result ≡ is_alu op }
{
    match op {
        // registers
        Op::Add
        | Op::Sub
        | Op::Sll
        | Op::Slt
        | Op::Sltu
        | Op::Xor
        | Op::Srl
        | Op::Sra
        | Op::Or
        | Op::And => true,
        // immediates
        Op::Addi
        | Op::Slti
        | Op::Sltiu
        | Op::Xori
        | Op::Ori
        | Op::Andi
        | Op::Slli
        | Op::Srli
        | Op::Srai => true,
        // products and quotients
        Op::Mul | Op::Mulh | Op::Mulhsu | Op::Mulhu | Op::Div | Op::Divu | Op::Rem | Op::Remu =>
            true,
        // words
        Op::Addw
        | Op::Subw
        | Op::Sllw
        | Op::Srlw
        | Op::Sraw
        | Op::Addiw
        | Op::Slliw
        | Op::Srliw
        | Op::Sraiw
        | Op::Mulw
        | Op::Divw
        | Op::Divuw
        | Op::Remw
        | Op::Remuw => true,
        _ => false,
    }
}

/// Whether the operation is a conditional branch.
#[tactic(auto, unfolding(crate::specs::Results::is_branch))]
pub fn is_branch(op: Op) -> bool
    ensures { result ≡ is_branch op }
{
    matches!(
        op,
        Op::Beq | Op::Bne | Op::Blt | Op::Bge | Op::Bltu | Op::Bgeu
    )
}

/// Whether the operation is an atomic memory operation; `lr` and `sc` are not.
#[tactic(auto, unfolding(crate::specs::Results::is_amo))]
pub fn is_amo(op: Op) -> bool
    ensures { result ≡ is_amo op }
{
    matches!(
        op,
        Op::AmoswapD
            | Op::AmoaddD
            | Op::AmoxorD
            | Op::AmoandD
            | Op::AmoorD
            | Op::AmominD
            | Op::AmomaxD
            | Op::AmominuD
            | Op::AmomaxuD
            | Op::AmoswapW
            | Op::AmoaddW
            | Op::AmoxorW
            | Op::AmoandW
            | Op::AmoorW
            | Op::AmominW
            | Op::AmomaxW
            | Op::AmominuW
            | Op::AmomaxuW
    )
}
