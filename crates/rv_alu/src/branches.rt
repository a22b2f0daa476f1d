// The conditions of the branches.

ghost use Rattle.std.specs.Prelude.{◌≡◌, IsTrue};
ghost use Rattle.rv_alu.specs.Results.{is_branch, branch_taken};

use rv_table::Op;

/// Whether the branch is taken. `a` is rs1, `b` is rs2.
#[tactic(auto, unfolding(crate::specs::Results::is_branch, crate::specs::Results::branch_taken))]
pub fn branch(op: Op, a: u64, b: u64) -> bool
    requires { IsTrue (is_branch op) }
    ensures { result ≡ branch_taken op a b }
{
    match op {
        Op::Beq => a == b,
        Op::Bne => a != b,
        Op::Blt => a.cast_signed() < b.cast_signed(),
        Op::Bge => a.cast_signed() >= b.cast_signed(),
        Op::Bltu => a < b,
        Op::Bgeu => a >= b,
        _ => unreachable!(),
    }
}
