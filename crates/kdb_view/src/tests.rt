use super::*;
use hart_ctx::Context;
use mach_base::Text;
use std::alloc::{AllocError, Global};
use std::test::Fail;
use sym_map::Symbols;
use test_memory::ByteList;

fn text(alloc: Global, bytes: &[u8]) -> Result<Text, AllocError> {
    Ok(Text::from_vec(Vec::from_slice(alloc, bytes)?))
}

#[test]
fn memory_is_shown(rt: HostRuntime) -> Result<(), Fail> {
    let alloc = rt.alloc();
    let mem = ByteList::new(Vec::from_slice(alloc, b"0123456789abcdef")?);
    let ctxs = [Context::new(4, 0); 2];
    let kdb = Kdb::new(alloc)?;
    let names = Symbols::read(alloc, b"0000000000000000 T start\n")?;
    let view = View::new(&mem, &ctxs, &kdb, &names);
    let words = [
        text(alloc, b"mdr")?,
        text(alloc, b"start+4")?,
        text(alloc, b"2")?,
    ];
    let values = values_of(&view, &words, true)?;
    let bytes = mdr(alloc, &view, values)?;
    assert_eq!(rt; bytes.as_bytes(), b"3435\n".as_slice());
    Ok(())
}

#[test]
fn processors_are_shown(rt: HostRuntime) -> Result<(), Fail> {
    let alloc = rt.alloc();
    let mem = ByteList::new(Vec::new(alloc));
    let ctxs = [Context::new(4, 0); 2];
    let kdb = Kdb::new(alloc)?;
    let names = Symbols::read(alloc, b"0000000000000000 T start\n")?;
    let view = View::new(&mem, &ctxs, &kdb, &names);
    let frames = bt(alloc, &view)?;
    assert_eq!(rt;
        frames.as_bytes(),
        b"#0 0x0000000000000004 (start+0x4)\n".as_slice()
    );
    let processors = cpu_list(alloc, &view, 3)?;
    assert_eq!(rt;
        processors.as_bytes(),
        b"Currently on cpu 0\nAvailable cpus: 0, 1\n".as_slice()
    );
    Ok(())
}
