ghost use Rattle.std.specs.Prelude.{◌≡◌, ◌/◌};
ghost use Rattle.hart_ctx.specs.Reservation.{granule_of, is_among, without_reservation, without_reservations};

use crate::context::Context;

/// The granule that holds the address, by its number: 8 aligned bytes, the granularity of reservations.
pub fn granule_of(addr: u64) -> u64
    ensures { result ≡ granule_of addr }
{
    addr / 8
}

/// Whether the reservation is on one of the granules from `first` to `last`, both included.
pub fn is_among(first: u64, last: u64, reservation: Option<u64>) -> bool
    ensures { result ≡ is_among first last reservation }
{
    match reservation {
        None => false,
        Some(granule) => first <= granule && granule <= last,
    }
}

/// Ends the hart's reservation where it is on one of these granules.
fn end_reservation(ctx: &mut Context, first: u64, last: u64)
    ensures { ctx.new ≡ without_reservation first last ctx.old }
{
    if is_among(first, last, ctx.reservation) {
        ctx.reservation = None;
    }
}

/// Ends each hart's reservation on the granules from `first` to `last`, both included: what a write to memory does to
/// those that hold its bytes.
pub fn end_reservations(ctxs: &mut [Context], first: u64, last: u64)
    ensures { ctxs.new ≡ without_reservations first last ctxs.old }
{
    for ctx in ctxs.iter_mut() {
        end_reservation(ctx, first, last);
    }
}

#[cfg(test)]
mod tests {
    use super::*;

    #[test]
    fn ends_reservations_on_granules(rt: HostRuntime) {
        // A reservation, the granules that are written, and the reservation then.
        for (reserved, first, last, want) in [
            (None, 0, 8, None),
            (Some(4), 5, 6, Some(4)),
            (Some(5), 5, 6, None),
            (Some(6), 5, 6, None),
            (Some(7), 5, 6, Some(7)),
            (Some(granule_of(0x1007)), 0x200, 0x200, None),
        ] {
            let mut first_hart = Context::new(0x1000, 0);
            first_hart.reservation = Some(9);
            let mut second_hart = first_hart;
            second_hart.reservation = reserved;
            let mut ctxs = [first_hart, second_hart];
            end_reservations(&mut ctxs, first, last);
            let (kept, ended) = (ctxs[0], ctxs[1]);
            assert_eq!(rt; (kept.reservation, ended.reservation), (Some(9), want));
        }
    }
}
