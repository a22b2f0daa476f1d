use super::*;
use mach_base::Peek;
use std::test::Fail;

#[test]
fn its_bytes_are_mapped_from_0_on(rt: HostRuntime) -> Result<(), Fail> {
    let mut mem = ByteList::new([1, 2, 3].to_vec(rt.alloc())?);
    assert!(rt; mem.poke(1, 7) && !mem.poke(3, 7));
    assert_eq!(rt;
        (mem.peek(0), mem.peek(1), mem.peek(3)),
        (Some(1), Some(7), None)
    );
    assert!(rt; mem.is_text(0x107c) && !mem.is_text(0x107d) && !mem.is_text(0x1080));
    Ok(())
}
