//! Sets of harts or of breakpoint places as masks, with bit k for number k.
ghost use Rattle.std.specs.Prelude.{◌≡◌, ◌<◌, ◌≤◌, ◌+◌, ◌-◌, ℕ, Option};
ghost use Rattle.mach_base.specs.Masks.{has_bit, mask_with, mask_without, all_but, least, least_outside};
ghost use Rattle.mach_base.specs.declared.limits.TheConstants.{MASK_HARTS};

/// Whether the mask has this number, below 64.
#[tactic(auto, unfolding(crate::specs::Masks::has_bit), using(crate::proofs::Bits::has_by_shift))]
pub fn has_bit(mask: u64, k: u8) -> bool
    requires { k < 64 }
    ensures { result ≡ has_bit mask k }
{
    mask >> k & 1 == 1
}

/// The mask with this number, below 64, too.
#[tactic(auto, unfolding(crate::specs::Masks::mask_with), using(crate::proofs::Bits::one_at))]
pub fn mask_with(mask: u64, k: u8) -> u64
    requires { k < 64 }
    ensures { result ≡ mask_with mask k }
{
    mask | 1 << k
}

/// The mask without this number, below 64, which it has.
#[tactic(auto, unfolding(crate::specs::Masks::mask_without), using(crate::proofs::Bits::one_at))]
pub fn mask_without(mask: u64, k: u8) -> u64
    requires { k < 64 }
    ensures { result ≡ mask_without mask k }
{
    mask ^ 1 << k
}

/// The least number of a mask; 64 where it is 0.
#[tactic(auto, unfolding(crate::specs::Masks::least), using(crate::proofs::Bits::trailing_at_most))]
pub fn least(mask: u64) -> u8
    ensures { result ≡ least mask }
{
    mask.trailing_zeros() as u8
}

/// The mask without its least number; the mask isn't 0.
#[tactic(auto, using(crate::proofs::Bits::least_small))]
pub fn without_least(mask: u64) -> u64
    requires { 0 < mask }
    ensures { result ≡ mask_without mask (least mask) }
{
    mask_without(mask, least(mask))
}

/// The mask of all of so many harts but those of a mask.
#[tactic(auto, unfolding(crate::specs::Masks::all_but), using(crate::proofs::Bits::one_at))]
pub fn all_but(harts: u8, mask: u64) -> u64
    requires { harts ≤ MASK_HARTS }
    ensures { result ≡ all_but harts mask }
{
    ((1 << harts) - 1) ^ mask
}

/// The least hart from this one on that isn't in the mask, if any.
pub fn least_outside(harts: u8, from: u8, mask: u64) -> Option<u8>
    requires { harts ≤ MASK_HARTS }
    ensures { result ≡ least_outside (harts - from) from mask }
{
    for k in from..harts {
        if !has_bit(mask, k) {
            return Some(k);
        }
    }
    None
}

#[cfg(test)]
mod tests {
    use super::*;

    #[test]
    fn reads_and_changes_masks(rt: HostRuntime) {
        assert!(rt; has_bit(0b1010, 3) && !has_bit(0b1010, 2) && has_bit(1 << 63, 63));
        assert!(rt; mask_with(0b1010, 3) == 0b1010 && mask_with(0b1010, 2) == 0b1110);
        assert!(rt; mask_without(0b1010, 3) == 0b10 && without_least(0b1010) == 0b1000);
        assert!(rt; least(0b1010) == 1 && all_but(4, 0b1010) == 0b0101);
        assert!(rt; least_outside(4, 1, 0b1010) == Some(2) && least_outside(2, 1, 0b10).is_none());
    }
}
