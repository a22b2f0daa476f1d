ghost use Rattle.std.specs.Prelude.{◌≡◌, Some, None, IsTrue};
ghost use Rattle.rv_alu.specs.Results.{is_branch};
ghost use Rattle.mem_map.specs.Access.{access_fault};
ghost use Rattle.mem_map.specs.declared.rights.Access.TheVariants as access;
ghost use Rattle.rv_decode.specs.Instruction.{fields_of};
ghost use Rattle.hart_step.specs.Operands.{HasWidth};
ghost use Rattle.hart_step.specs.Faults.{target_fault, service_fault, own_fault, word_fault};
ghost use Rattle.hart_step.specs.declared.class.Class.TheVariants.{Branch};

use crate::class::{Class, class_of};
use crate::control::{is_known, target};
use crate::operands::{address, first};
use hart_ctx::Context;
use mach_base::{Cause, Fault};
use mem_map::Map;
use rv_decode::{Insn, decode};

/// The first fault of the word in this context, among so many harts, after those of the fetch (docs/machine.md,
/// "Faults"); None exactly where there is none. The word is the one at the pc; nothing is fetched.
#[tactic(auto, unfolding(crate::specs::Faults::word_fault))]
pub fn fault_of(ctx: &Context, harts: u8, map: &Map, word: u32) -> Option<Fault>
    ensures { result ≡ word_fault ctx.now harts map.now.memory word }
{
    let Some(insn) = decode(word) else {
        return Some(illegal(word));
    };
    own_fault(class_of(insn.op), ctx, harts, map, &insn)
}

/// The fault of a word that is no instruction.
pub fn illegal(word: u32) -> Fault
    ensures { result ≡ record { cause = Cause.Illegal; addr = word } }
{
    Fault {
        cause: Cause::Illegal,
        addr: u64::from(word),
    }
}

#[tactic(auto, unfolding(crate::specs::Faults::own_fault, mem_map::specs::Access::load_result))]
fn own_fault(class: Class, ctx: &Context, harts: u8, map: &Map, insn: &Insn) -> Option<Fault>
    requires branch { class ≡ Branch → IsTrue (is_branch insn.now.op) }
    requires width { HasWidth class }
    ensures { result ≡ own_fault class ctx.now harts map.now.memory (fields_of insn.now) }
{
    match class {
        Class::Load { width, .. } => map.load(address(ctx, insn), width).err(),
        Class::Store { width } => map.storable(address(ctx, insn), width).err(),
        Class::Reserve { width } | Class::Conditional { width } | Class::Atomic { width } => {
            map.storable(first(ctx, insn), width).err()
        }
        Class::Service => service_fault(ctx, harts),
        _ => target_fault(target(class, ctx, insn)),
    }
}

/// The fault of a jump to this target, if it is one.
pub fn target_fault(target: Option<u64>) -> Option<Fault>
    ensures { result ≡ target_fault target }
{
    match target {
        Some(addr) if addr % 4 != 0 => Some(Fault {
            cause: Cause::Misaligned,
            addr,
        }),
        _ => None,
    }
}

fn service_fault(ctx: &Context, harts: u8) -> Option<Fault>
    ensures { result ≡ service_fault ctx.now harts }
{
    if is_known(ctx, harts) {
        return None;
    }
    Some(Fault {
        cause: Cause::BadService,
        addr: ctx.get(17),
    })
}
