ghost use Rattle.std.specs.Prelude.{◌≡◌, ◌<◌, None, MatchOption};
ghost use Rattle.std.specs.List.{list_any};
ghost use Rattle.mach_base.specs.declared.limits.TheConstants.{PLACES};
ghost use Rattle.kdb_bp.specs.Breaks.{is_at, is_enabled_at, first_empty, first_enabled};

use crate::Place;
use crate::places::COUNT;

/// Whether a place has the address.
pub fn has(places: &[Option<Place>; COUNT], addr: u64) -> bool
    ensures { result ≡ list_any (is_at addr) places.now }
{
    places.iter().any(|place| is_at(*place, addr))
}

/// The least empty place.
#[tactic(auto, using(crate::proofs::Bounds::position_below))]
pub fn first_empty(places: &[Option<Place>; COUNT]) -> Option<usize>
    ensures value { result ≡ first_empty places.now }
    ensures below { MatchOption result (result ≡ None) (λ i. i < PLACES) }
{
    places.iter().position(|place| place.is_none())
}

/// The least place that is enabled at this address.
#[tactic(auto, using(crate::proofs::Bounds::position_below))]
pub fn first_enabled(places: &[Option<Place>; COUNT], addr: u64) -> Option<usize>
    ensures value { result ≡ first_enabled addr places.now }
    ensures below { MatchOption result (result ≡ None) (λ i. i < PLACES) }
{
    places.iter().position(|place| is_enabled_at(*place, addr))
}

fn is_at(place: Option<Place>, addr: u64) -> bool
    ensures { result ≡ is_at addr place }
{
    match place {
        Some(place) => place.addr == addr,
        None => false,
    }
}

fn is_enabled_at(place: Option<Place>, addr: u64) -> bool
    ensures { result ≡ is_enabled_at addr place }
{
    match place {
        Some(place) => place.enabled && place.addr == addr,
        None => false,
    }
}
