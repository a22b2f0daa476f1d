ghost use Rattle.std.specs.Prelude.{◌≡◌};
ghost use Rattle.kdb_mem.specs.declared.mem_fault.MemFault.TheVariants.{OutOfMemory};

/// Why memory isn't shown or changed. Where several hold, the earlier one here comes first.
#[derive(Clone, Copy, Debug, PartialEq, Eq)]
pub enum MemFault {
    /// Nothing is mapped at this address; it is the first such address of the range.
    BadAddr(u64),
    /// The value needs more bytes than are written.
    TooWide,
    /// Memory could not be had for the text.
    OutOfMemory,
}

impl From<mach_base::OutOfMemory> for MemFault {
    ghost from_gives = { λ _ e. e ≡ OutOfMemory };

    fn from(_error: mach_base::OutOfMemory) -> MemFault {
        MemFault::OutOfMemory
    }
}
