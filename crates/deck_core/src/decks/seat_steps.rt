//! What one hart's step changes among the seats.
ghost use Rattle.std.specs.Prelude.{◌≡◌, ◌==◌, ◌||◌, ◌<◌, ◌≤◌, ◌^◌, ℕ, ◌+◌, ◌*◌, not, slice_index_or};
ghost use Rattle.deck_core.specs.contract.Told.{Told};
ghost use Rattle.deck_core.specs.ticks.Tick.{enters, writes, goes, peeks, takes, tries_master, turns_gate, frees, gives, is_busy};
ghost use Rattle.deck_core.specs.decks.Seats.{configuration_of};
ghost use Rattle.mach_base.specs.declared.limits.TheConstants.{MOST_LINES};
ghost use Rattle.deck_core.specs.declared.plain.words.TheConstants.{SEATS};

use crate::decks::seats::Seats;
use crate::plain::words::{is_busy, mask_of, turn_word};
use crate::{Phase, Place};
use mach_base::Hart;

/// The hart goes to another phase.
pub fn enters(seats: &mut Seats, h: Hart, phase: Phase)
    requires { h.0 < SEATS }
    ensures { (limit : ℕ) (told : Told) → configuration_of limit seats.new told ≡ enters h.0 phase (configuration_of limit seats.old told) }
{
    seats.phases[h.0 as usize] = phase;
}

/// The hart writes its own word, and goes to another phase.
pub fn writes(seats: &mut Seats, h: Hart, word: u64, phase: Phase)
    requires { h.0 < SEATS }
    ensures { (limit : ℕ) (told : Told) → configuration_of limit seats.new told ≡ writes h.0 word phase (configuration_of limit seats.old told) }
{
    seats.words.x[h.0 as usize] = word;
    seats.phases[h.0 as usize] = phase;
}

/// The hart goes to another place in its transaction.
pub fn goes(seats: &mut Seats, h: Hart, place: Place)
    requires { h.0 < SEATS }
    ensures { (limit : ℕ) (told : Told) → configuration_of limit seats.new told ≡ goes h.0 place (configuration_of limit seats.old told) }
{
    seats.places[h.0 as usize] = place;
}

/// The hart loads the turn word in this phase. False where it finds it busy.
pub fn peeks(seats: &mut Seats, h: Hart, phase: Phase) -> bool
    requires { h.0 < SEATS }
    ensures moves { (limit : ℕ) (told : Told) → configuration_of limit seats.new told ≡ peeks h.0 phase (configuration_of limit seats.old told) }
    ensures found { result ≡ not (is_busy h.0 phase seats.old.words.turn) }
{
    let seen = seats.words.turn;
    if is_busy(h, phase, seen) {
        return false;
    }
    goes(seats, h, Place::Take { seen });
    true
}

/// The hart takes the turn, where the turn word is still this one.
pub fn takes(seats: &mut Seats, h: Hart, seen: u64) -> bool
    requires { h.0 < SEATS }
    ensures moves { (limit : ℕ) (told : Told) → configuration_of limit seats.new told ≡ takes h.0 seen (configuration_of limit seats.old told) }
    ensures found { result ≡ (seats.old.words.turn == seen) }
{
    if seats.words.turn == seen {
        seats.words.turn = turn_word(mask_of(seats.words.turn), h);
        goes(seats, h, Place::Give);
        true
    } else {
        goes(seats, h, Place::Peek);
        false
    }
}

/// The hart gives the turn back with this mask, and goes to another phase.
pub fn gives(seats: &mut Seats, h: Hart, phase: Phase, mask: u64)
    requires { h.0 < SEATS }
    ensures { (limit : ℕ) (told after : Told) → mask ≡ after.mask → configuration_of limit seats.new after ≡ gives h.0 phase after (configuration_of limit seats.old told) }
{
    seats.words.turn = mask;
    seats.phases[h.0 as usize] = phase;
    seats.places[h.0 as usize] = Place::Peek;
}

/// The hart becomes the master where there is none.
pub fn tries_master(seats: &mut Seats, h: Hart) -> bool
    requires { h.0 < SEATS }
    ensures moves { (limit : ℕ) (told : Told) → configuration_of limit seats.new told ≡ tries_master h.0 (configuration_of limit seats.old told) }
    ensures found { result ≡ (seats.old.words.master == 0) }
{
    if seats.words.master == 0 {
        seats.words.master = u64::from(h.0) + 1;
        enters(seats, h, Phase::Own);
        true
    } else {
        false
    }
}

/// The gate's number grows by 1, and the hart goes to another phase.
pub fn turns_gate(seats: &mut Seats, h: Hart, phase: Phase)
    requires hart { h.0 < SEATS }
    requires gate { seats.old.words.gate ≤ 2 * MOST_LINES + 4 }
    ensures { (limit : ℕ) (told : Told) → configuration_of limit seats.new told ≡ turns_gate h.0 phase (configuration_of limit seats.old told) }
{
    seats.words.gate += 1;
    enters(seats, h, phase);
}

/// The master word is freed, and the hart runs on.
pub fn frees(seats: &mut Seats, h: Hart)
    requires { h.0 < SEATS }
    ensures { (limit : ℕ) (told : Told) → configuration_of limit seats.new told ≡ frees h.0 (configuration_of limit seats.old told) }
{
    seats.words.master = 0;
    enters(seats, h, Phase::Run);
}

/// The hart's phase.
pub fn phase_of(seats: &Seats, h: Hart) -> Phase
    requires { h.0 < SEATS }
    ensures { result ≡ slice_index_or seats.now.phases h.0 Phase.Run }
{
    seats.phases[h.0 as usize]
}

/// The hart's place.
pub fn place_of(seats: &Seats, h: Hart) -> Place
    requires { h.0 < SEATS }
    ensures { result ≡ slice_index_or seats.now.places h.0 Place.Peek }
{
    seats.places[h.0 as usize]
}

/// Whether the hart's own word is 1 or the gate's number: its mark counts.
pub fn is_marked(seats: &Seats, h: Hart) -> bool
    requires { h.0 < SEATS }
    ensures { result ≡ ((slice_index_or seats.now.words.x h.0 0 == 1) || (slice_index_or seats.now.words.x h.0 0 == seats.now.words.gate)) }
{
    let word = seats.words.x[h.0 as usize];
    word == 1 || word == seats.words.gate
}
