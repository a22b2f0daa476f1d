ghost use Rattle.std.specs.Prelude.{◌≡◌, ◌<◌, ◌^◌};
ghost use Rattle.mach_base.specs.Bytes.{IsWidth};
ghost use Rattle.rv_decode.specs.Instruction.{fields_of};
ghost use Rattle.hart_step.specs.Operands.{register, immediate, address, extension};

use hart_ctx::Context;
use rv_decode::Insn;

/// The immediate as a 64-bit pattern.
pub fn immediate(insn: &Insn) -> u64
    ensures { result ≡ immediate (fields_of insn.now) }
{
    i64::from(insn.imm).cast_unsigned()
}

/// The value of rs1.
pub fn first(ctx: &Context, insn: &Insn) -> u64
    ensures { result ≡ register ctx.now insn.now.rs1 }
{
    ctx.get(insn.rs1)
}

/// The value of rs2.
pub fn second(ctx: &Context, insn: &Insn) -> u64
    ensures { result ≡ register ctx.now insn.now.rs2 }
{
    ctx.get(insn.rs2)
}

/// The address of a load or a store.
pub fn address(ctx: &Context, insn: &Insn) -> u64
    ensures { result ≡ address ctx.now (fields_of insn.now) }
{
    first(ctx, insn).wrapping_add(immediate(insn))
}

/// What a load of so many bytes puts into a register.
pub fn extension(value: u64, width: u8, signed: bool) -> u64
    requires width { IsWidth width }
    requires fits { value < 256 ^ width }
    ensures { result ≡ extension width signed value }
{
    if !signed {
        return value;
    }
    match width {
        1 => ((value as u8).cast_signed() as i64).cast_unsigned(),
        2 => ((value as u16).cast_signed() as i64).cast_unsigned(),
        4 => ((value as u32).cast_signed() as i64).cast_unsigned(),
        8 => value,
        _ => unreachable!(),
    }
}
