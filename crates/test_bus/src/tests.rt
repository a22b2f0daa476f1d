//! What a new bus tells.
use crate::small_bus;
use deck_core::Bus;

#[test]
fn hart_0_has_a_trap_at_the_start(rt: HostRuntime) {
    let bus = small_bus(1);
    assert_eq!(rt; (bus.harts(), bus.mask()), (2, 0));
    assert_eq!(rt;
        (bus.notes().traps, bus.over(), bus.lost()),
        (1, None, false)
    );
}
