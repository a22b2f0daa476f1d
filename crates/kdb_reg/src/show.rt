ghost use Rattle.std.specs.Prelude.{◌≡◌, ◌+◌, ◌<◌, ◌++◌, OnOk, OnErr, replicate};
ghost use Rattle.kdb_reg.specs.Registers.{register_item, register_row, register_rows, registers_text};

use hart_ctx::{Context, RegName, reg_name};
use mach_base::{OutOfMemory, push_bytes, push_hex, push_newline};

/// Appends the registers' text: x0 to x31 by their ABI names, four on a line, then the pc alone. A refusal leaves `out`
/// as it was.
pub fn show_regs(ctx: &Context, out: &mut Vec<u8>) -> Result<(), OutOfMemory>
    ensures ok { OnOk result (out.new.items ≡ out.old.items ++ registers_text ctx.now) }
    ensures err { OnErr result (out.new.items ≡ out.old.items) }
{
    let mut text = Vec::new(*out.allocator());
    push_registers(&mut text, ctx)?;
    push_bytes(out, text.as_slice())?;
    Ok(())
}

#[tactic(auto, unfolding(crate::specs::Registers::registers_text))]
fn push_registers(out: &mut Vec<u8>, context: &Context) -> Result<(), OutOfMemory>
    ensures { OnOk result (out.new.items ≡ out.old.items ++ registers_text context.now) }
{
    push_rows(out, context)?;
    push_bytes(out, b"  pc: ")?;
    push_hex(out, context.pc, 16)?;
    push_newline(out)?;
    Ok(())
}

fn push_rows(out: &mut Vec<u8>, context: &Context) -> Result<(), OutOfMemory>
    ensures { OnOk result (out.new.items ≡ out.old.items ++ register_rows context.now 8) }
{
    for row in 0..8u8 {
        push_row(out, context, 4 * row)?;
    }
    Ok(())
}

#[tactic(auto, unfolding(crate::specs::Registers::register_row))]
fn push_row(out: &mut Vec<u8>, context: &Context, first: u8) -> Result<(), OutOfMemory>
    requires { first + 3 < 32 }
    ensures { OnOk result (out.new.items ≡ out.old.items ++ register_row context.now first) }
{
    push_item(out, context, first)?;
    push_bytes(out, b"  ")?;
    push_item(out, context, first + 1)?;
    push_bytes(out, b"  ")?;
    push_item(out, context, first + 2)?;
    push_bytes(out, b"  ")?;
    push_item(out, context, first + 3)?;
    push_newline(out)?;
    Ok(())
}

#[tactic(auto, unfolding(crate::specs::Registers::register_item))]
fn push_item(out: &mut Vec<u8>, context: &Context, number: u8) -> Result<(), OutOfMemory>
    requires { number < 32 }
    ensures { OnOk result (out.new.items ≡ out.old.items ++ register_item context.now number) }
{
    let name = reg_name(RegName::X(number)).as_bytes();
    push_blanks(out, 4usize.saturating_sub(name.len()))?;
    push_bytes(out, name)?;
    push_bytes(out, b": ")?;
    push_hex(out, context.get(number), 16)?;
    Ok(())
}

fn push_blanks(out: &mut Vec<u8>, count: usize) -> Result<(), OutOfMemory>
    ensures { OnOk result (out.new.items ≡ out.old.items ++ replicate count 32) }
{
    for _i in 0..count {
        out.push(b' ')?;
    }
    Ok(())
}
