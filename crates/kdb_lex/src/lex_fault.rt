ghost use Rattle.std.specs.Prelude.{◌≡◌};
ghost use Rattle.kdb_lex.specs.declared.lex_fault.LexFault.TheVariants.{OutOfMemory};

/// Why a line was not cut into words. Where several hold, the earlier one here comes first.
#[derive(Clone, Copy, Debug, PartialEq, Eq)]
pub enum LexFault {
    /// A quoted part isn't closed.
    Unclosed,
    /// There are too many words before the pipe.
    TooManyWords,
    /// The pipe has no word before it, or isn't followed by just `grep` and a pattern that isn't empty.
    BadPipe,
    /// There was no memory for the words.
    OutOfMemory,
}

impl From<mach_base::OutOfMemory> for LexFault {
    ghost from_gives = { λ _ e. e ≡ OutOfMemory };

    fn from(_error: mach_base::OutOfMemory) -> LexFault {
        LexFault::OutOfMemory
    }
}
