ghost use Rattle.std.specs.Prelude.{◌≡◌, ◌++◌, Err, OnOk, OnErr, IsOkUnless};
ghost use Rattle.std.specs.Bool.{OnTrue, OnFalse};
ghost use Rattle.hart_ctx.specs.RegisterName.{IsRegister};
ghost use Rattle.kdb_reg.specs.declared.set.RegFault.TheVariants.{OutOfMemory};
ghost use Rattle.kdb_reg.specs.Registers.{is_zero, with_named, set_text};

use hart_ctx::{Context, RegName, reg_name};
use mach_base::{push_address, push_bytes, push_newline};

/// Why a register isn't set.
#[derive(Clone, Copy, Debug, PartialEq, Eq)]
pub enum RegFault {
    /// It is register 0, which is always 0.
    ReadOnly,
    /// Memory could not be had for the text.
    OutOfMemory,
}

impl From<mach_base::OutOfMemory> for RegFault {
    ghost from_gives = { λ _ e. e ≡ OutOfMemory };

    fn from(_error: mach_base::OutOfMemory) -> RegFault {
        RegFault::OutOfMemory
    }
}

/// Sets a register, or the pc, and appends the line that says so: its name and the value as an address. ReadOnly comes
/// exactly for register 0. A refusal leaves the context and `out` as they were.
pub fn set_reg(
    ctx: &mut Context,
    out: &mut Vec<u8>,
    reg: RegName,
    value: u64,
) -> Result<(), RegFault>
    requires { IsRegister reg }
    ensures text { OnOk result (out.new.items ≡ out.old.items ++ set_text reg value) }
    ensures context { OnOk result (ctx.new ≡ with_named ctx.old reg value) }
    ensures same_text { OnErr result (out.new.items ≡ out.old.items) }
    ensures same_context { OnErr result (ctx.new ≡ ctx.old) }
    ensures zero { OnTrue (is_zero reg) (result ≡ Err RegFault.ReadOnly) }
    ensures other { OnFalse (is_zero reg) (IsOkUnless result RegFault.OutOfMemory) }
{
    if is_zero(reg) {
        return Err(RegFault::ReadOnly);
    }
    push_set(out, reg, value)?;
    match reg {
        RegName::X(number) => ctx.set(number, value),
        RegName::Pc => ctx.pc = value,
    }
    Ok(())
}

fn is_zero(reg: RegName) -> bool
    ensures { result ≡ is_zero reg }
{
    match reg {
        RegName::X(number) => number == 0,
        RegName::Pc => false,
    }
}

/// Appends the line. A refusal leaves `out` as it was.
fn push_set(out: &mut Vec<u8>, reg: RegName, value: u64) -> Result<(), mach_base::OutOfMemory>
    requires { IsRegister reg }
    ensures ok { OnOk result (out.new.items ≡ out.old.items ++ set_text reg value) }
    ensures err { OnErr result (out.new.items ≡ out.old.items) }
{
    let mut line = Vec::new(*out.allocator());
    push_set_parts(&mut line, reg, value)?;
    push_bytes(out, line.as_slice())?;
    Ok(())
}

#[tactic(auto, unfolding(crate::specs::Registers::set_text))]
fn push_set_parts(out: &mut Vec<u8>, reg: RegName, value: u64) -> Result<(), mach_base::OutOfMemory>
    requires { IsRegister reg }
    ensures { OnOk result (out.new.items ≡ out.old.items ++ set_text reg value) }
{
    push_bytes(out, reg_name(reg).as_bytes())?;
    push_bytes(out, b" = ")?;
    push_address(out, value)?;
    push_newline(out)?;
    Ok(())
}
