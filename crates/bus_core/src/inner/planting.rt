//! Entries about planted words.

use crate::inner::Inner;

impl Inner {
    ghost use Rattle.std.specs.Prelude.{◌≡◌, true};
    ghost use Rattle.mach_base.specs.declared.event.Entry.TheVariants.{Pull, Plant, PlantStep, PullStep};
    ghost use Rattle.plant_mach.specs.Entries.{may, effect};
    ghost use Rattle.plant_mach.specs.Order.{IsOrderly};
    ghost use Rattle.bus_core.specs.Inner.{machine_of};

    /// The planted word of the place is taken out.
    #[tactic(auto, unfolding(plant_mach::specs::Entries::effect))]
    pub fn make_pull(&mut self, place: u8)
        requires legal { may (machine_of self.old) (Pull place) ≡ true }
        ensures next { machine_of self.new ≡ (effect (machine_of self.old) (Pull place)).next }
    {
        self.memory.pull(place);
    }

    /// The word of the place is planted where the place is enabled.
    #[tactic(auto, unfolding(plant_mach::specs::Entries::effect))]
    pub fn make_plant(&mut self, place: u8)
        requires legal { may (machine_of self.old) (Plant place) ≡ true }
        requires order { ∥ IsOrderly (machine_of self.old) ∥₁ }
        ensures next { machine_of self.new ≡ (effect (machine_of self.old) (Plant place)).next }
    {
        match self.enabled_at(place) {
            Some(addr) => self.memory.plant(place, addr),
            None => unreachable!(),
        }
    }

    /// The step word is planted.
    #[tactic(auto, unfolding(plant_mach::specs::Entries::effect))]
    pub fn make_plant_step(&mut self, addr: u64)
        requires legal { may (machine_of self.old) (PlantStep addr) ≡ true }
        requires order { ∥ IsOrderly (machine_of self.old) ∥₁ }
        ensures next { machine_of self.new ≡ (effect (machine_of self.old) (PlantStep addr)).next }
    {
        self.memory.plant_step(addr);
    }

    /// The step word is taken out.
    #[tactic(auto, unfolding(plant_mach::specs::Entries::effect))]
    pub fn make_pull_step(&mut self)
        requires legal { may (machine_of self.old) PullStep ≡ true }
        ensures next { machine_of self.new ≡ (effect (machine_of self.old) PullStep).next }
    {
        self.memory.pull_step();
    }
}
