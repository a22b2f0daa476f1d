//! Plans on the pure deck.
ghost use Rattle.std.specs.Prelude.{◌≡◌, ◌<◌, ◌≤◌, ℕ, IfOk, [], ◌∷◌, length};
ghost use Rattle.mach_base.specs.declared.limits.TheConstants.{MASK_HARTS};
ghost use Rattle.deck_core.specs.contract.Told.{Told};
ghost use Rattle.deck_core.specs.ticks.Configuration.{opening};
ghost use Rattle.hart_prog.specs.Plan.{AllStand, AllBelow, ProgramsStand, WholeRuns, hart_numbers};

use crate::Prog;
use deck_core::{Bus, Deck, Flat};
use mach_base::{Hart, OutOfMemory};
use std::alloc::Global;

/// The programs of so many harts, that of hart k at k, before their first ticks.
pub fn programs(alloc: Global, harts: u8, limit: u32) -> Result<Vec<Prog>, OutOfMemory>
    requires few { harts ≤ MASK_HARTS }
    requires rounds { 0 < limit }
    ensures { IfOk result (λ progs. (told : Told) → told.harts ≡ harts → ProgramsStand (opening limit told) progs.items) }
{
    let mut progs = Vec::with_capacity(alloc, harts as usize)?;
    for h in 0..harts {
        progs.push(Prog::new(Hart(h), harts, limit))?;
    }
    Ok(progs)
}

/// Makes a tick of each hart of the plan, in order.
pub fn run_plan<B: Bus>(deck: &mut Flat<B>, progs: &mut [Prog], plan: &[Hart])
    requires stand { AllStand (⟦<Flat<B> as Deck>⟧.whole deck.old) progs.old }
    requires harts { AllBelow (length progs.old) plan.now }
    ensures stand { AllStand (⟦<Flat<B> as Deck>⟧.whole deck.new) progs.new }
    ensures runs { WholeRuns B.told B.Does (hart_numbers plan.now) (⟦<Flat<B> as Deck>⟧.whole deck.old) deck.old.bus (⟦<Flat<B> as Deck>⟧.whole deck.new) deck.new.bus }
    ensures origin { ⟦<Flat<B> as Deck>⟧.SameOrigin deck.old deck.new }
{
    for &h in plan {
        tick_of(deck, progs, h);
    }
}

/// Makes the hart's next tick.
fn tick_of<B: Bus>(deck: &mut Flat<B>, progs: &mut [Prog], h: Hart)
    requires stand { AllStand (⟦<Flat<B> as Deck>⟧.whole deck.old) progs.old }
    requires hart { h.0 < length progs.old }
    ensures stand { AllStand (⟦<Flat<B> as Deck>⟧.whole deck.new) progs.new }
    ensures runs { WholeRuns B.told B.Does (h.0 ∷ []) (⟦<Flat<B> as Deck>⟧.whole deck.old) deck.old.bus (⟦<Flat<B> as Deck>⟧.whole deck.new) deck.new.bus }
    ensures origin { ⟦<Flat<B> as Deck>⟧.SameOrigin deck.old deck.new }
{
    deck.select(h);
    let mut prog = progs[h.0 as usize];
    prog.advance(deck);
    progs[h.0 as usize] = prog;
}
