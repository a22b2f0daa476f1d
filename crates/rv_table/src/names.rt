// The mnemonics of the operations.

ghost use Rattle.std.specs.Prelude.{◌≡◌, Some, IfSome};
ghost use Rattle.rv_table.specs.declared.op.Op.{Op as OpData};
ghost use Rattle.rv_table.specs.Mnemonics.{op_name, op_named};

use crate::op::Op;
use crate::table::rows;

/// The operation's mnemonic, as the unprivileged specification's instruction listings have it, in lower case: `addi`,
/// `lr.w`. The ordering bits of an atomic are no part of it.
#[tactic(auto, unfolding(crate::specs::Mnemonics::op_name))]
pub fn op_name(op: Op) -> &'static str
    ensures { result.now ≡ op_name op }
{
    match op {
        Op::Lui => "lui",
        Op::Auipc => "auipc",
        Op::Jal => "jal",
        Op::Jalr => "jalr",
        Op::Lb => "lb",
        Op::Lh => "lh",
        Op::Lw => "lw",
        Op::Ld => "ld",
        Op::Lbu => "lbu",
        Op::Lhu => "lhu",
        Op::Lwu => "lwu",
        Op::Addi => "addi",
        Op::Slti => "slti",
        Op::Sltiu => "sltiu",
        Op::Xori => "xori",
        Op::Ori => "ori",
        Op::Andi => "andi",
        Op::Slli => "slli",
        Op::Srli => "srli",
        Op::Srai => "srai",
        Op::Addiw => "addiw",
        Op::Slliw => "slliw",
        Op::Srliw => "srliw",
        Op::Sraiw => "sraiw",
        Op::Fence => "fence",
        Op::Beq => "beq",
        Op::Bne => "bne",
        Op::Blt => "blt",
        Op::Bge => "bge",
        Op::Bltu => "bltu",
        Op::Bgeu => "bgeu",
        Op::Sb => "sb",
        Op::Sh => "sh",
        Op::Sw => "sw",
        Op::Sd => "sd",
        Op::Add => "add",
        Op::Sub => "sub",
        Op::Sll => "sll",
        Op::Slt => "slt",
        Op::Sltu => "sltu",
        Op::Xor => "xor",
        Op::Srl => "srl",
        Op::Sra => "sra",
        Op::Or => "or",
        Op::And => "and",
        Op::Mul => "mul",
        Op::Mulh => "mulh",
        Op::Mulhsu => "mulhsu",
        Op::Mulhu => "mulhu",
        Op::Div => "div",
        Op::Divu => "divu",
        Op::Rem => "rem",
        Op::Remu => "remu",
        Op::Addw => "addw",
        Op::Subw => "subw",
        Op::Sllw => "sllw",
        Op::Srlw => "srlw",
        Op::Sraw => "sraw",
        Op::Mulw => "mulw",
        Op::Divw => "divw",
        Op::Divuw => "divuw",
        Op::Remw => "remw",
        Op::Remuw => "remuw",
        Op::LrW => "lr.w",
        Op::LrD => "lr.d",
        Op::ScW => "sc.w",
        Op::AmoswapW => "amoswap.w",
        Op::AmoaddW => "amoadd.w",
        Op::AmoxorW => "amoxor.w",
        Op::AmoandW => "amoand.w",
        Op::AmoorW => "amoor.w",
        Op::AmominW => "amomin.w",
        Op::AmomaxW => "amomax.w",
        Op::AmominuW => "amominu.w",
        Op::AmomaxuW => "amomaxu.w",
        Op::ScD => "sc.d",
        Op::AmoswapD => "amoswap.d",
        Op::AmoaddD => "amoadd.d",
        Op::AmoxorD => "amoxor.d",
        Op::AmoandD => "amoand.d",
        Op::AmoorD => "amoor.d",
        Op::AmominD => "amomin.d",
        Op::AmomaxD => "amomax.d",
        Op::AmominuD => "amominu.d",
        Op::AmomaxuD => "amomaxu.d",
        Op::Ecall => "ecall",
        Op::Ebreak => "ebreak",
    }
}

/// The operation of a mnemonic; `None` exactly where the text is the mnemonic of none.
#[tactic(auto, unfolding(crate::specs::Mnemonics::op_named))]
pub fn op_named(name: &[u8]) -> Option<Op>
    ensures value { result ≡ op_named name.now }
    ensures name { IfSome result (λ op. name.now ≡ op_name op) }
{
    rows()
        .rows
        .iter()
        .map(|row| row.op)
        .find(|op| op_name(*op).as_bytes() == name)
}

/// No two operations have the same mnemonic: each mnemonic is read as its operation, and equal ones are those of one
/// operation. The call does nothing; its contract says so to callers.
pub fn names_differ()
    ensures read { (op : OpData) → op_named (op_name op) ≡ Some op }
    ensures differ { (a b : OpData) → op_name a ≡ op_name b → a ≡ b }
{}
