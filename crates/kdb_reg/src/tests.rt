use super::*;
use hart_ctx::{Context, RegName};
use std::test::Fail;

#[test]
fn shows_four_registers_on_a_line(rt: HostRuntime) -> Result<(), Fail> {
    let mut ctx = Context::new(0x1000, 0x8000);
    ctx.set(31, u64::MAX);
    let mut out = Vec::new(rt.alloc());
    show_regs(&ctx, &mut out)?;
    let text = out.as_slice();
    let first =
        b"zero: 0000000000000000    ra: 0000000000000000    sp: 0000000000008000    gp: 0000000000000000\n";
    let last = b"    t6: ffffffffffffffff\n  pc: 0000000000001000\n";
    assert_eq!(rt; text.len(), 8 * first.len() + 23);
    assert!(rt; text.starts_with(first));
    assert!(rt; text.ends_with(last));
    Ok(())
}

#[test]
fn sets_registers_but_not_zero(rt: HostRuntime) -> Result<(), Fail> {
    let mut ctx = Context::new(0x1000, 0x8000);
    let mut out = Vec::new(rt.alloc());
    assert_eq!(rt; set_reg(&mut ctx, &mut out, RegName::X(8), 0x2a), Ok(()));
    assert_eq!(rt;
        set_reg(&mut ctx, &mut out, RegName::X(0), 1),
        Err(RegFault::ReadOnly)
    );
    assert_eq!(rt; set_reg(&mut ctx, &mut out, RegName::Pc, 0x1004), Ok(()));
    assert_eq!(rt; (ctx.get(8), ctx.get(0), ctx.pc), (0x2a, 0, 0x1004));
    assert_eq!(rt;
        out.as_slice(),
        b"s0 = 0x000000000000002a\npc = 0x0000000000001004\n".as_slice()
    );
    Ok(())
}
