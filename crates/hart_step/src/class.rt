ghost use Rattle.std.specs.Prelude.{◌≡◌, ℕ, IsTrue};
ghost use Rattle.rv_alu.specs.Results.{is_alu, is_branch, is_amo};
ghost use Rattle.mach_base.specs.Bytes.{IsWidth};
ghost use Rattle.hart_step.specs.Operands.{class_of, other_class, has_immediate, atomic_width, HasWidth, IsOther};
ghost use Rattle.hart_step.specs.declared.class.Class.TheVariants.{Load, Immediate, Registers, Branch, Atomic};

use rv_alu::{is_alu, is_amo, is_branch};
use rv_table::Op;

/// How an operation takes its operands. Widths are in bytes.
#[derive(Clone, Copy, Debug, PartialEq, Eq)]
pub enum Class {
    /// `lui`.
    Upper,
    /// `auipc`.
    UpperPc,
    /// `jal`.
    Jump,
    /// `jalr`.
    JumpRegister,
    /// A conditional branch.
    Branch,
    /// A load; `signed` says whether it carries the sign on.
    Load { width: u8, signed: bool },
    /// A store.
    Store { width: u8 },
    /// Arithmetic on a register and the immediate.
    Immediate,
    /// Arithmetic on two registers.
    Registers,
    /// `fence`.
    Order,
    /// `lr`.
    Reserve { width: u8 },
    /// `sc`.
    Conditional { width: u8 },
    /// An atomic memory operation.
    Atomic { width: u8 },
    /// `ecall`.
    Service,
    /// `ebreak`.
    Breakpoint,
}

/// The class of an operation.
#[tactic(auto, unfolding(crate::specs::Operands::class_of))]
pub fn class_of(op: Op) -> Class
    ensures class { result ≡ class_of op }
    ensures immediate { result ≡ Immediate → IsTrue (is_alu op) }
    ensures registers { result ≡ Registers → IsTrue (is_alu op) }
    ensures branch { result ≡ Branch → IsTrue (is_branch op) }
    ensures atomic { (width : ℕ) → result ≡ Atomic width → IsTrue (is_amo op) }
    ensures width { HasWidth result }
{
    if is_alu(op) {
        return if has_immediate(op) {
            Class::Immediate
        } else {
            Class::Registers
        };
    }
    if is_branch(op) {
        return Class::Branch;
    }
    if is_amo(op) {
        return Class::Atomic {
            width: atomic_width(op),
        };
    }
    other_class(op)
}

#[tactic(auto, unfolding(crate::specs::Operands::has_immediate))]
fn has_immediate(op: Op) -> bool
    ensures { result ≡ has_immediate op }
{
    match op {
        Op::Addi | Op::Addiw | Op::Slti | Op::Sltiu | Op::Xori | Op::Ori | Op::Andi => true,
        Op::Slli | Op::Srli | Op::Srai | Op::Slliw | Op::Srliw | Op::Sraiw => true,
        _ => false,
    }
}

#[tactic(auto, unfolding(crate::specs::Operands::atomic_width))]
fn atomic_width(op: Op) -> u8
    ensures width { result ≡ atomic_width op }
    ensures known { IsWidth result }
{
    match op {
        Op::AmoswapD | Op::AmoaddD | Op::AmoxorD | Op::AmoandD | Op::AmoorD => 8,
        Op::AmominD | Op::AmomaxD | Op::AmominuD | Op::AmomaxuD => 8,
        _ => 4,
    }
}

/// The class of an operation that neither branches nor computes.
#[tactic(auto, unfolding(crate::specs::Operands::other_class))]
fn other_class(op: Op) -> Class
    ensures class { result ≡ other_class op }
    ensures other { IsOther result }
    ensures width { HasWidth result }
{
    match op {
        Op::Lui => Class::Upper,
        Op::Auipc => Class::UpperPc,
        Op::Jal => Class::Jump,
        Op::Jalr => Class::JumpRegister,
        Op::Lb => load_class(1, true),
        Op::Lh => load_class(2, true),
        Op::Lw => load_class(4, true),
        Op::Ld => load_class(8, false),
        Op::Lbu => load_class(1, false),
        Op::Lhu => load_class(2, false),
        Op::Lwu => load_class(4, false),
        Op::Sb => Class::Store { width: 1 },
        Op::Sh => Class::Store { width: 2 },
        Op::Sw => Class::Store { width: 4 },
        Op::Sd => Class::Store { width: 8 },
        Op::Fence => Class::Order,
        Op::LrW => Class::Reserve { width: 4 },
        Op::LrD => Class::Reserve { width: 8 },
        Op::ScW => Class::Conditional { width: 4 },
        Op::ScD => Class::Conditional { width: 8 },
        Op::Ecall => Class::Service,
        _ => Class::Breakpoint,
    }
}

fn load_class(width: u8, signed: bool) -> Class
    ensures { result ≡ Load width signed }
{
    Class::Load { width, signed }
}
