ghost use Rattle.std.specs.Prelude.{◌≡◌, ◌∷◌, ◌<◌, ◌≤◌, None, Some, IsTrue, length, map, slice_index_or, is_some, if◌then◌else◌};
ghost use Rattle.mach_base.specs.Masks.{mask_with};
ghost use Rattle.mach_base.specs.Machine.{is_text_word};
ghost use Rattle.mem_map.specs.Access.{access_fault, after_store};
ghost use Rattle.mem_map.specs.Pages.{KeepsUnmarked};
ghost use Rattle.mem_map.specs.declared.rights.Access.TheVariants.{Fetch};
ghost use Rattle.bus_plant.specs.Planted.{planted_mask};
ghost use Rattle.bus_plant.specs.Saved.{address_of, addresses, saved_word, word_for, byte_seen, after_poke, IsSaved};

use crate::words::{byte_of, read_word, with_byte, write_word};
use mach_base::mask_with;
use mem_map::Map;
use rv_table::EBREAK;

/// A planted word: where it is, and the word that was there before.
#[derive(Clone, Copy, Debug, PartialEq, Eq)]
pub struct Saved {
    pub addr: u64,
    pub word: u32,
}

/// Writes `ebreak` over the word of text at the address; the word that was there is saved.
pub fn save_word(raw: &mut Map, addr: u64) -> Saved
    requires { IsTrue (is_text_word raw.old.memory addr) }
    ensures addr { result.addr ≡ addr }
    ensures saved { IsSaved raw.old.memory result raw.new.memory }
    ensures pages { KeepsUnmarked raw.old raw.new }
{
    if !raw.is_text(addr) {
        unreachable!()
    }
    let word = read_word(raw, addr);
    write_word(raw, addr, EBREAK);
    Saved { addr, word }
}

/// Writes the saved word over the `ebreak` at its address.
pub fn restore_word(raw: &mut Map, saved: Saved)
    requires { access_fault raw.old.memory Fetch saved.addr 4 ≡ None }
    ensures memory { raw.new.memory ≡ after_store raw.old.memory saved.addr 4 saved.word }
    ensures pages { KeepsUnmarked raw.old raw.new }
{
    write_word(raw, saved.addr, saved.word);
}

/// The word that is saved for the address, if any.
pub fn saved_at(step: Option<Saved>, places: &[Option<Saved>], addr: u64) -> Option<u32>
    ensures { result ≡ saved_word (step ∷ places.now) addr }
{
    match word_for(step, addr) {
        Some(word) => Some(word),
        None => saved_among(places, addr),
    }
}

/// The word of a slot, if it is that of the address.
fn word_for(slot: Option<Saved>, addr: u64) -> Option<u32>
    ensures { result ≡ word_for slot addr }
{
    match slot {
        Some(saved) if saved.addr == addr => Some(saved.word),
        _ => None,
    }
}

fn saved_among(places: &[Option<Saved>], addr: u64) -> Option<u32>
    ensures { result ≡ saved_word places.now addr }
{
    for place in places {
        if let Some(word) = word_for(*place, addr) {
            return Some(word);
        }
    }
    None
}

/// The byte that is seen at an address where the word that holds it is saved, or isn't.
pub fn seen_byte(saved: Option<u32>, addr: u64, below: u8) -> u8
    ensures { Some result ≡ byte_seen saved addr (Some below) }
{
    match saved {
        Some(word) => byte_of(word, addr % 4),
        None => below,
    }
}

/// Writes a byte into a saved word, where it is one of that word's.
pub fn poke_saved(slot: &mut Option<Saved>, addr: u64, byte: u8)
    ensures { slot.new ≡ after_poke addr byte slot.old }
{
    if let Some(saved) = slot
        && saved.addr == addr - addr % 4
    {
        saved.word = with_byte(saved.word, addr % 4, byte);
    }
}

/// Writes a byte into the saved word that it is one of.
pub fn poke_places(places: &mut [Option<Saved>], addr: u64, byte: u8)
    ensures { places.new ≡ map (after_poke addr byte) places.old }
{
    for place in places.iter_mut() {
        poke_saved(place, addr, byte);
    }
}

/// The address of a planted word.
pub fn address_of(slot: Option<Saved>) -> Option<u64>
    ensures { result ≡ address_of slot }
{
    match slot {
        Some(saved) => Some(saved.addr),
        None => None,
    }
}

/// The address at which the place is planted; None where there is no such place.
pub fn address_at(places: &[Option<Saved>], i: usize) -> Option<u64>
    ensures { result ≡ slice_index_or (addresses places.now) i None }
{
    if i < places.len() {
        address_of(places[i])
    } else {
        None
    }
}

/// The mask of the places that are planted.
pub fn mask_of(places: &[Option<Saved>]) -> u64
    requires { length places.now ≤ 64 }
    ensures { result ≡ planted_mask (addresses places.now) (length places.now) }
{
    let mut mask = 0;
    for (k, place) in places.iter().enumerate() {
        mask = mask_with_place(mask, k as u8, *place);
    }
    mask
}

/// The mask with this place too, if it is planted.
fn mask_with_place(mask: u64, number: u8, place: Option<Saved>) -> u64
    requires { number < 64 }
    ensures { result ≡ (if is_some place then mask_with mask number else mask) }
{
    match place {
        Some(_) => mask_with(mask, number),
        None => mask,
    }
}
