ghost use Rattle.std.specs.Prelude.{◌≡◌, [], None, false, replicate, IfOk};
ghost use Rattle.mach_base.specs.declared.limits.TheConstants.{PLACES};
ghost use Rattle.kdb_env.specs.Variables.{defaults};

use kdb_bp::Breaks;
use kdb_env::Env;
use kdb_macro::Macros;
use mach_base::OutOfMemory;
use std::alloc::Global;

/// What the debugger keeps between two lines.
#[derive(Debug, Drop)]
pub struct Kdb {
    pub breaks: Breaks,
    pub env: Env,
    pub macros: Macros,
    /// The number of the processor whose registers the commands are about.
    pub current: u8,
}

impl Kdb {
    /// The start: no breakpoints, the variables' defaults, no macros, and processor 0.
    pub fn new(alloc: Global) -> Result<Kdb, OutOfMemory>
        ensures breaks { IfOk result (λ kdb. kdb.breaks ≡ replicate PLACES None) }
        ensures env { IfOk result (λ kdb. kdb.env ≡ defaults) }
        ensures macros { IfOk result (λ kdb. kdb.macros ≡ record { macros = []; defining = false }) }
        ensures current { IfOk result (λ kdb. kdb.current ≡ 0) }
    {
        let env = Env::new(alloc)?;
        let macros = Macros::new(alloc)?;
        Ok(Kdb {
            breaks: Breaks::new(),
            env,
            macros,
            current: 0,
        })
    }
}
