//! The words that the harts share.
ghost use Rattle.std.specs.Prelude.{◌≡◌, ◌<◌, ◌≤◌, ◌^◌, suc};
ghost use Rattle.deck_core.specs.plain.Words.{turn_word, mask_of, holder_of};
ghost use Rattle.deck_core.specs.ticks.Phases.{is_in_session};
ghost use Rattle.deck_core.specs.ticks.Tick.{is_busy};
ghost use Rattle.mach_base.specs.declared.limits.TheConstants.{MASK_HARTS};

use crate::Phase;
use mach_base::{Hart, MASK_HARTS, has_bit};

/// How many harts the words have room for.
pub const SEATS: usize = MASK_HARTS as usize;

/// The turn word, the master word, the gate's number, and each hart's own word, that of hart k at k.
#[derive(Clone, Copy, Debug, PartialEq, Eq)]
pub struct Words {
    /// The mask of the stopped harts in bits 0 to 31, and above it the number of the hart that holds the turn plus 1, or 0.
    pub turn: u64,
    /// The master's number plus 1, or 0.
    pub master: u64,
    /// Even where the gate is open, odd where it is shut.
    pub gate: u64,
    /// 0 where a hart is out, 1 where it wants the prompt or has it, else the gate's number at which it marked itself.
    pub x: [u64; SEATS],
}

/// The turn word with this mask, below 2^32, and this hart as the holder.
#[tactic(auto, unfolding(crate::specs::plain::Words::turn_word))]
pub fn turn_word(mask: u64, holder: Hart) -> u64
    requires { mask < 2 ^ 32 }
    ensures { result ≡ turn_word mask (suc holder.0) }
{
    (u64::from(holder.0) + 1) * 0x1_0000_0000 + mask
}

/// The mask in a turn word.
#[tactic(auto, unfolding(crate::specs::plain::Words::mask_of))]
pub fn mask_of(turn: u64) -> u64
    ensures value { result ≡ mask_of turn }
    ensures small { result < 2 ^ 32 }
{
    turn % 0x1_0000_0000
}

/// The number of the holder plus 1 in a turn word, or 0.
#[tactic(auto, unfolding(crate::specs::plain::Words::holder_of))]
pub fn holder_of(turn: u64) -> u64
    ensures { result ≡ holder_of turn }
{
    turn / 0x1_0000_0000
}

/// Whether a session is open while its master is in this phase.
pub fn is_in_session(phase: Phase) -> bool
    ensures { result ≡ is_in_session phase }
{
    match phase {
        Phase::Enter { reopens, .. } => reopens,
        Phase::Pull { .. } | Phase::Lines { .. } | Phase::Plant { .. } | Phase::Close { .. } =>
            true,
        Phase::PlantStep { .. } | Phase::PassStep { .. } | Phase::PullStep { .. } => true,
        _ => false,
    }
}

/// Whether a hart in this phase finds the turn busy at this turn word.
pub fn is_busy(h: Hart, phase: Phase, turn: u64) -> bool
    requires { h.0 < MASK_HARTS }
    ensures { result ≡ is_busy h.0 phase turn }
{
    holder_of(turn) != 0 || (has_bit(mask_of(turn), h.0) && !is_in_session(phase))
}
