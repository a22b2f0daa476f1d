use super::*;
use test_memory::ByteList;

#[test]
fn sixteen_places_and_no_more(rt: HostRuntime) {
    let mem = ByteList::new(Vec::new(rt.alloc()));
    let mut breaks = Breaks::new();
    for i in 0..16 {
        let added = breaks.add(&mem, 0x1000 + 4 * i);
        assert!(rt; added.is_ok());
    }
    // The refusals in their order: each address has what the ones after it refuse, too.
    for (addr, fault) in [
        (0x1002, BpFault::BadAddr),
        (0x2000, BpFault::NotText),
        (0x1000, BpFault::Duplicate),
        (0x1040, BpFault::TooMany),
    ] {
        assert_eq!(rt; breaks.add(&mem, addr), Err(fault));
    }
    assert_eq!(rt; breaks.enable(2, false), Ok(()));
    let disabled = Place {
        addr: 0x1008,
        enabled: false,
    };
    assert_eq!(rt; breaks.at(2), Some(disabled));
    assert_eq!(rt;
        (breaks.enabled_at(0x1008), breaks.enabled_at(0x103c)),
        (None, Some(15))
    );
    assert_eq!(rt; breaks.clear(3), Ok(()));
    assert_eq!(rt; (breaks.at(3), breaks.at(16)), (None, None));
    assert_eq!(rt; breaks.add(&mem, 0x1040), Ok(3));
}
