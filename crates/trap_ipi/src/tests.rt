use super::*;
use hart_ctx::Context;
use mach_base::Hart;

/// A hart at 0x1000 that asks for a service. Its interrupts are masked, and its epc is 0x2000.
fn asking(number: u64, argument: u64) -> Context {
    let mut ctx = Context::new(0x1000, 0);
    ctx.set(17, number);
    ctx.set(10, argument);
    ctx.epc = 0x2000;
    ctx.masked = true;
    ctx
}

/// What hart 1 of two is answered, and both contexts afterwards.
fn asked(number: u64, argument: u64) -> (Served, Context, Context) {
    let mut ctxs = [Context::new(0x1000, 0), asking(number, argument)];
    let answer = service(&mut ctxs, Hart(1));
    (answer, ctxs[0], ctxs[1])
}

#[test]
fn serves_the_hart_that_asks(rt: HostRuntime) {
    let other = Context::new(0x1000, 0);
    // Each service with its argument, its answer, and what of the context is then: pc, a0, vector, masked, halted.
    let table: [(u64, u64, Served, (u64, u64, u64, bool, bool)); 9] = [
        (0, 5, Served::Plain, (0x1004, 5, 0, true, true)),
        (
            1,
            0x141,
            Served::Byte(0x41),
            (0x1004, 0x141, 0, true, false),
        ),
        (2, 5, Served::Plain, (0x1004, 1, 0, true, false)),
        (3, 5, Served::Plain, (0x1004, 5, 0, true, false)),
        (4, 5, Served::Plain, (0x1004, 5, 0, false, false)),
        (
            5,
            0x3000,
            Served::Plain,
            (0x1004, 0x3000, 0x3000, true, false),
        ),
        (6, 2, Served::Unknown(6), (0x1000, 2, 0, true, false)),
        (7, 5, Served::Plain, (0x2000, 5, 0, false, false)),
        (8, 5, Served::Unknown(8), (0x1000, 5, 0, true, false)),
    ];
    for (number, argument, answer, (pc, a0, vector, masked, halted)) in table {
        let (answered, first, second) = asked(number, argument);
        let mut wanted = asking(number, a0);
        wanted.pc = pc;
        wanted.vector = vector;
        wanted.masked = masked;
        wanted.halted = halted;
        assert_eq!(rt; answered, answer);
        assert_eq!(rt; first, other);
        assert_eq!(rt; second, wanted);
    }
}

#[test]
fn makes_interrupts_pending(rt: HostRuntime) {
    let mut other = Context::new(0x1000, 0);
    other.pending = true;
    let mut wanted = asking(6, 0);
    wanted.pc = 0x1004;
    assert_eq!(rt; asked(6, 0), (Served::Plain, other, wanted));
    let mut own = asking(6, 1);
    own.pc = 0x1004;
    own.pending = true;
    assert_eq!(rt; asked(6, 1), (Served::Plain, Context::new(0x1000, 0), own));
}

#[test]
fn takes_an_interrupt(rt: HostRuntime) {
    let mut ctx = Context::new(0x1000, 0);
    ctx.pending = true;
    assert_eq!(rt; takeable(&ctx), false);
    ctx.vector = 0x3000;
    ctx.masked = true;
    assert_eq!(rt; takeable(&ctx), false);
    ctx.masked = false;
    assert_eq!(rt; takeable(&ctx), true);
    let mut wanted = ctx;
    wanted.pending = false;
    wanted.masked = true;
    wanted.epc = 0x1000;
    wanted.pc = 0x3000;
    take(&mut ctx);
    assert_eq!(rt; ctx, wanted);
    ctx.masked = false;
    ctx.pending = true;
    ctx.halted = true;
    assert_eq!(rt; takeable(&ctx), false);
}
