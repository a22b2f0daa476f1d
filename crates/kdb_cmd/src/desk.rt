ghost use Rattle.std.specs.Prelude.{◌≡◌};
ghost use Rattle.kdb_cmd.specs.Desk.{desk_state, IsReady};

use crate::Kdb;
use hart_ctx::Context;
use kdb_view::View;
use mach_base::Peek;
use std::alloc::Global;
use sym_map::Symbols;

/// The processors in a session, a bit for each by its number, and the one that the session was entered on.
#[derive(Clone, Copy, Debug, PartialEq, Eq)]
pub struct Gathering {
    pub gathered: u64,
    pub entry: u8,
}

/// What a line works on: the state that it sees and may change, the processors of the session, and the allocator.
pub struct Desk<'c, 'k, 'm, 's, P: Peek> {
    pub ctxs: &'c mut [Context],
    pub kdb: &'k mut Kdb,
    pub mem: &'m mut P,
    pub names: &'s Symbols,
    pub gathering: Gathering,
    pub alloc: Global,
}

impl<P: Peek> Desk<'_, '_, '_, '_, P> {
    /// The same, to be read alone.
    #[tactic(auto, using(crate::proofs::Gathered::gathered_there))]
    pub fn view(&self) -> View<'_, P>
        requires { IsReady P.memory self.now }
        ensures { result ≡ desk_state P.memory self.now }
    {
        View::new(self.mem, self.ctxs, self.kdb, self.names)
    }
}
