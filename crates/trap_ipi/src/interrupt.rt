ghost use Rattle.std.specs.Prelude.{◌≡◌, IsTrue};
ghost use Rattle.trap_ipi.specs.Interrupt.{is_takeable, after_interrupt};

use hart_ctx::Context;

/// Whether the hart's interrupt may be taken (docs/machine.md, "Harts").
pub fn takeable(ctx: &Context) -> bool
    ensures { result ≡ is_takeable ctx.now }
{
    ctx.pending && !ctx.masked && !ctx.halted && ctx.vector != 0
}

/// Takes the hart's interrupt: the pc is saved, and the hart goes on at its handler with interrupts masked.
pub fn take(ctx: &mut Context)
    requires { IsTrue (is_takeable ctx.old) }
    ensures { ctx.new ≡ after_interrupt ctx.old }
{
    ctx.epc = ctx.pc;
    ctx.pc = ctx.vector;
    ctx.pending = false;
    ctx.masked = true;
}
