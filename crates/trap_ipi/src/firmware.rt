ghost use Rattle.std.specs.Prelude.{◌≡◌, ◌<◌, length};
ghost use Rattle.trap_ipi.specs.Service.{is_known, caller_after, with_pending, after_service, answer};

use hart_ctx::Context;
use mach_base::Hart;

/// The register with the number of the service, a7.
const NUMBER: u8 = 17;

/// The register with its argument, and with its result, a0.
const ARGUMENT: u8 = 10;

/// The answer of a service.
#[derive(Clone, Copy, Debug, PartialEq, Eq)]
pub enum Served {
    /// It is done, and prints nothing.
    Plain,
    /// It is done, and the byte goes to the console.
    Byte(u8),
    /// There is no service of this number; nothing is changed.
    Unknown(u64),
}

/// The service that the hart asks for, by its a7 and a0 (docs/machine.md, "Services"). The hart is one of the contexts.
#[tactic(auto, unfolding(crate::specs::Service::after_service, crate::specs::Service::answer))]
pub fn service(ctxs: &mut [Context], h: Hart) -> Served
    requires { h.0 < length ctxs.old }
    ensures answer { result ≡ answer ctxs.old h.0 }
    ensures contexts { ctxs.new ≡ after_service ctxs.old h.0 }
{
    let mut ctx = ctxs[usize::from(h.0)];
    let number = ctx.get(NUMBER);
    let argument = ctx.get(ARGUMENT);
    if !is_known(ctxs.len(), number, argument) {
        return Served::Unknown(number);
    }
    serve(&mut ctx, number, h);
    ctxs[usize::from(h.0)] = ctx;
    if number == 6 {
        interrupt(ctxs, argument as usize);
    }
    if number == 1 {
        Served::Byte((argument % 256) as u8)
    } else {
        Served::Plain
    }
}

fn is_known(harts: usize, number: u64, argument: u64) -> bool
    ensures { result ≡ is_known harts number argument }
{
    if number == 6 {
        argument < harts as u64
    } else {
        number < 8
    }
}

/// What the service does to the hart that asks.
#[tactic(auto, unfolding(crate::specs::Service::caller_after))]
fn serve(ctx: &mut Context, number: u64, h: Hart)
    ensures { ctx.new ≡ caller_after number h.0 ctx.old }
{
    let next = ctx.pc.wrapping_add(4);
    match number {
        0 => ctx.halted = true,
        2 => ctx.set(ARGUMENT, u64::from(h.0)),
        3 => ctx.masked = true,
        4 => ctx.masked = false,
        5 => ctx.vector = ctx.get(ARGUMENT),
        7 => ctx.masked = false,
        _ => {}
    }
    ctx.pc = if number == 7 { ctx.epc } else { next };
}

/// Makes an interrupt pending for a hart.
fn interrupt(ctxs: &mut [Context], hart: usize)
    requires { hart < length ctxs.old }
    ensures { ctxs.new ≡ with_pending ctxs.old hart }
{
    let mut ctx = ctxs[hart];
    ctx.pending = true;
    ctxs[hart] = ctx;
}
