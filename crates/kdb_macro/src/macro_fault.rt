ghost use Rattle.std.specs.Prelude.{◌≡◌};
ghost use Rattle.kdb_macro.specs.declared.macro_fault.MacroFault.TheVariants.{OutOfMemory};

/// Why a macro isn't begun, or doesn't take a line. Where several hold, the earlier one here comes first.
#[derive(Clone, Copy, Debug, PartialEq, Eq)]
pub enum MacroFault {
    /// The name is none that a variable could have.
    BadName,
    /// A command has the name.
    Reserved,
    /// A macro has the name.
    Duplicate,
    /// There are as many macros as there may be, or the macro has as many lines as it may have.
    Full,
    /// There was no memory.
    OutOfMemory,
}

impl From<mach_base::OutOfMemory> for MacroFault {
    ghost from_gives = { λ _ e. e ≡ OutOfMemory };

    fn from(_error: mach_base::OutOfMemory) -> MacroFault {
        MacroFault::OutOfMemory
    }
}
