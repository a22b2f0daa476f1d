ghost use Rattle.std.specs.Prelude.{◌≡◌};
ghost use Rattle.kdb_env.specs.declared.env_fault.EnvFault.TheVariants.{OutOfMemory};

/// Why a variable was not set. Where several hold, the earlier one here comes first.
#[derive(Clone, Copy, Debug, PartialEq, Eq)]
pub enum EnvFault {
    /// The name is no letter followed by letters, digits or `_`, or has more than 16 bytes.
    BadName,
    /// RADIX takes 8, 10 and 16.
    BadRadix,
    /// BYTESPERWORD takes 1, 2, 4 and 8.
    BadWidth,
    /// MDCOUNT takes a number from 1 to 256.
    BadCount,
    /// The name is new, and there are as many variables as there may be.
    Full,
    /// There was no memory for the variable.
    OutOfMemory,
}

impl From<mach_base::OutOfMemory> for EnvFault {
    ghost from_gives = { λ _ e. e ≡ OutOfMemory };

    fn from(_error: mach_base::OutOfMemory) -> EnvFault {
        EnvFault::OutOfMemory
    }
}
