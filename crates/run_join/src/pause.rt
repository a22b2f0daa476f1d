//! A pause on a clock.
ghost use Rattle.std.specs.Prelude.{◌≡◌};

use deck_core::Pause;
use mach_base::Hart;
use std::thread;
use std::time::{Clock, Duration};

/// A pause of one millisecond on the clock. A failure of the clock is passed over.
#[derive_where(Clone, Copy)]
pub struct Millisecond<'a, R: Clock + Sync> {
    rt: &'a R,
}

impl<'a, R: Clock + Sync> Millisecond<'a, R> {
    /// A pause on this clock.
    pub fn new(rt: &'a R) -> Millisecond<'a, R>
        ensures { result.rt.now ≡ rt.entry.now }
    {
        Millisecond { rt }
    }
}

impl<R: Clock + Sync> Pause for Millisecond<'_, R> {
    fn pause(&mut self, _h: Hart) {
        thread::sleep(self.rt, Duration::from_millis(1));
    }
}
