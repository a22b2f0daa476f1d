use super::*;
use std::test::Fail;

#[test]
fn keeps_lines_in_order(rt: HostRuntime) -> Result<(), Fail> {
    let mut macros = Macros::new(rt.alloc())?;
    assert_eq!(rt; macros.begin(b"9a", true), Err(MacroFault::BadName));
    assert_eq!(rt; macros.begin(b"rd", true), Err(MacroFault::Reserved));
    assert_eq!(rt; macros.begin(b"w", false), Ok(()));
    assert_eq!(rt; macros.add(b" md 1000"), Ok(()));
    assert_eq!(rt; macros.add(b"go"), Ok(()));
    macros.end();
    assert_eq!(rt; macros.begin(b"w", false), Err(MacroFault::Duplicate));
    let copy = macros.try_copy(rt.alloc())?;
    assert_eq!(rt;
        (copy.defining(), copy.find(b"w"), copy.find(b"v")),
        (false, Some(0), None)
    );
    assert_eq!(rt; copy.line_at(0, 0), Some(b" md 1000".as_slice()));
    assert_eq!(rt; copy.line_at(0, 1), Some(b"go".as_slice()));
    assert!(rt; copy.line_at(0, 2).is_none() && copy.line_at(1, 0).is_none());
    Ok(())
}
