ghost use Rattle.std.specs.Prelude.{◌≡◌, IsTrue};
ghost use Rattle.rv_alu.specs.Results.{is_branch};
ghost use Rattle.rv_decode.specs.Instruction.{fields_of};
ghost use Rattle.trap_ipi.specs.Service.{is_known, service_number, argument};
ghost use Rattle.hart_step.specs.Operands.{class_of};
ghost use Rattle.hart_step.specs.Control.{even, target, following_pc, after_target, after_service_call, next_in, next_pc};
ghost use Rattle.hart_step.specs.declared.class.Class.TheVariants.{Branch};

use crate::class::{Class, class_of};
use crate::operands::{address, first, immediate, second};
use hart_ctx::Context;
use rv_alu::branch;
use rv_decode::{Insn, decode};

/// Where a hart goes on after a word.
#[derive(Clone, Copy, Debug, PartialEq, Eq)]
pub enum After {
    /// At this pc.
    At(u64),
    /// Nowhere: the word is no instruction, jumps to a target that is no multiple of 4, or asks for an unknown service.
    Nowhere,
}

/// Where the instruction jumps to, if it does.
#[tactic(auto, unfolding(crate::specs::Control::target))]
pub fn target(class: Class, ctx: &Context, insn: &Insn) -> Option<u64>
    requires { class ≡ Branch → IsTrue (is_branch insn.now.op) }
    ensures { result ≡ target class ctx.now (fields_of insn.now) }
{
    match class {
        Class::Jump => Some(ctx.pc.wrapping_add(immediate(insn))),
        Class::JumpRegister => Some(even(address(ctx, insn))),
        Class::Branch if branch(insn.op, first(ctx, insn), second(ctx, insn)) => {
            Some(ctx.pc.wrapping_add(immediate(insn)))
        }
        _ => None,
    }
}

/// The number with its lowest bit 0.
fn even(number: u64) -> u64
    ensures { result ≡ even number }
{
    number - number % 2
}

/// The pc of the next instruction in memory.
pub fn following_pc(ctx: &Context) -> u64
    ensures { result ≡ following_pc ctx.now }
{
    ctx.pc.wrapping_add(4)
}

/// The pc after the word in this context, among so many harts. The word is the one at the pc; nothing is fetched.
#[tactic(auto, unfolding(crate::specs::Control::next_pc))]
pub fn next(ctx: &Context, harts: u8, word: u32) -> After
    ensures { result ≡ next_pc ctx.now harts word }
{
    let Some(insn) = decode(word) else {
        return After::Nowhere;
    };
    next_in(class_of(insn.op), ctx, harts, &insn)
}

#[tactic(auto, unfolding(crate::specs::Control::next_in))]
fn next_in(class: Class, ctx: &Context, harts: u8, insn: &Insn) -> After
    requires { class ≡ Branch → IsTrue (is_branch insn.now.op) }
    ensures { result ≡ next_in class ctx.now harts (fields_of insn.now) }
{
    match class {
        Class::Service => after_service_call(ctx, harts),
        _ => after_target(ctx, target(class, ctx, insn)),
    }
}

fn after_target(ctx: &Context, target: Option<u64>) -> After
    ensures { result ≡ after_target ctx.now target }
{
    match target {
        None => After::At(following_pc(ctx)),
        Some(target) if target % 4 == 0 => After::At(target),
        Some(_) => After::Nowhere,
    }
}

fn after_service_call(ctx: &Context, harts: u8) -> After
    ensures { result ≡ after_service_call ctx.now harts }
{
    if !is_known(ctx, harts) {
        return After::Nowhere;
    }
    if ctx.get(17) == 7 {
        After::At(ctx.epc)
    } else {
        After::At(following_pc(ctx))
    }
}

/// Whether there is the service that the hart asks for, among so many harts.
pub fn is_known(ctx: &Context, harts: u8) -> bool
    ensures { result ≡ is_known harts (service_number ctx.now) (argument ctx.now) }
{
    let number = ctx.get(17);
    if number == 6 {
        ctx.get(10) < u64::from(harts)
    } else {
        number < 8
    }
}
