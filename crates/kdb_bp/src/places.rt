ghost use Rattle.std.specs.Prelude.{◌≡◌, ◌≢◌, ◌↔◌, ◌<◌, Ok, Err, None, IfOk, OnOk, OnErr, IfErr, length, replicate, slice_set};
ghost use Rattle.mach_base.specs.declared.limits.TheConstants.{PLACES};
ghost use Rattle.kdb_bp.specs.declared.bp_fault.BpFault.TheVariants.{NotFound};
ghost use Rattle.kdb_bp.specs.Breaks.{first_enabled, place_at, added, with_place, switched};

use crate::BpFault;
use crate::search::{first_empty, first_enabled, has};
use mach_base::{PLACES, Peek};
use std::marker::Model;

/// How many places there are.
pub const COUNT: usize = PLACES as usize;

/// A place that is set.
#[derive(Clone, Copy, Debug, PartialEq, Eq)]
pub struct Place {
    /// Where it stops a hart.
    pub addr: u64,
    /// Whether it does.
    pub enabled: bool,
}

impl Model for Place {
    ghost use Rattle.mach_base.specs.Machine.{Place as PlaceRecord};

    ghost Value = { PlaceRecord };

    ghost view = { λ p. record { addr = p.addr; enabled = p.enabled } };

    ghost inverse = { λ p. record { addr = p.addr; enabled = p.enabled } };
}

/// The places, each empty or set.
#[derive(Clone, Copy, Debug, PartialEq, Eq)]
pub struct Breaks {
    places: [Option<Place>; COUNT],
}

impl Model for Breaks {
    ghost use Rattle.std.specs.Prelude.{◌≡◌, List, length, Option};
    ghost use Rattle.mach_base.specs.Machine.{Place as PlaceRecord};
    ghost use Rattle.mach_base.specs.declared.limits.TheConstants.{PLACES};

    ghost Value = { List (Option PlaceRecord) };

    ghost view = { λ b. b.places };

    ghost invariant = { λ b. length b.places ≡ PLACES };

    ghost inverse = { λ b. record { places = b } };
}

impl Breaks {
    /// All places empty.
    pub fn new() -> Breaks
        ensures { result ≡ replicate PLACES None }
    {
        Breaks {
            places: [None; COUNT],
        }
    }

    /// There are always as many places. The call does nothing; its contract says so to callers.
    pub fn keeps_limits(&self)
        ensures { length self.now ≡ PLACES }
    {
        let _places = &self.places;
    }

    /// The place of a number; None exactly where it is empty or there is none of that number.
    #[tactic(auto, using(crate::proofs::Bounds::place_past))]
    pub fn at(&self, i: u8) -> Option<Place>
        ensures { result ≡ place_at self.now i }
    {
        if usize::from(i) < self.places.len() {
            self.places[usize::from(i)]
        } else {
            None
        }
    }

    /// The least place that is enabled at this address.
    pub fn enabled_at(&self, addr: u64) -> Option<u8>
        ensures { result ≡ first_enabled addr self.now }
    {
        let i = first_enabled(&self.places, addr)?;
        Some(i as u8)
    }

    /// Sets the least empty place to this address, enabled, and gives its number. The refusals come in the order of
    /// `BpFault`, and change nothing.
    #[tactic(auto, unfolding(crate::specs::Breaks::added))]
    pub fn add<P: Peek>(&mut self, mem: &P, addr: u64) -> Result<u8, BpFault>
        ensures answer { result ≡ added (P.memory mem.now) self.old addr }
        ensures ok { IfOk result (λ i. self.new ≡ with_place self.old i addr) }
        ensures err { OnErr result (self.new ≡ self.old) }
    {
        if addr % 4 != 0 {
            return Err(BpFault::BadAddr);
        }
        if !mem.is_text(addr) {
            return Err(BpFault::NotText);
        }
        if has(&self.places, addr) {
            return Err(BpFault::Duplicate);
        }
        match first_empty(&self.places) {
            Some(i) => {
                self.places[i] = Some(Place {
                    addr,
                    enabled: true,
                });
                Ok(i as u8)
            }
            None => Err(BpFault::TooMany),
        }
    }

    /// Empties a place. NotFound comes exactly where it is empty or there is none of that number.
    pub fn clear(&mut self, i: u8) -> Result<(), BpFault>
        ensures ok { OnOk result (self.new ≡ slice_set self.old i None) }
        ensures found { OnOk result (place_at self.old i ≢ None) }
        ensures err { OnErr result (self.new ≡ self.old) }
        ensures not_found { IfErr result (λ fault. (fault ≡ NotFound) × (place_at self.old i ≡ None)) }
    {
        if self.at(i).is_none() {
            return Err(BpFault::NotFound);
        }
        self.places[usize::from(i)] = None;
        Ok(())
    }

    /// Enables or disables a place. NotFound comes exactly where it is empty or there is none of that number.
    pub fn enable(&mut self, i: u8, on: bool) -> Result<(), BpFault>
        ensures ok { OnOk result (self.new ≡ slice_set self.old i (switched on (place_at self.old i))) }
        ensures found { OnOk result (place_at self.old i ≢ None) }
        ensures err { OnErr result (self.new ≡ self.old) }
        ensures not_found { IfErr result (λ fault. (fault ≡ NotFound) × (place_at self.old i ≡ None)) }
    {
        match self.at(i) {
            Some(place) => {
                self.places[usize::from(i)] = Some(Place {
                    addr: place.addr,
                    enabled: on,
                });
                Ok(())
            }
            None => Err(BpFault::NotFound),
        }
    }
}
