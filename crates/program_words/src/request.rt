/// The options of a run.
#[derive(Clone, Copy, Debug, PartialEq, Eq)]
pub struct Options {
    /// The harts of the machine, from 1 to 16; 1 where the words don't say.
    pub harts: u8,
    /// The limit of steps, from 1 to 4,000,000; 1,000,000 where the words don't say.
    pub steps: u64,
    /// The rounds in which a master looks for the others, from 1 to 100,000; 1,000 where the words don't say.
    pub rounds: u32,
}

/// A command, with the names of its files.
#[derive(Clone, Copy, Debug)]
pub enum Command<'a> {
    /// `uni IMAGE SCRIPT`: the image on one hart.
    Uni {
        image: &'a str,
        script: &'a str,
    },
    /// `replay IMAGE MAP SCRIPT JOURNAL`: the run that the journal tells.
    Replay {
        image: &'a str,
        map: &'a str,
        script: &'a str,
        journal: &'a str,
    },
    /// `run IMAGE MAP SCRIPT JOURNAL [--harts N] [--steps L] [--rounds R]`: a run of one worker a hart, with its journal.
    Run {
        image: &'a str,
        map: &'a str,
        script: &'a str,
        journal: &'a str,
        options: Options,
    },
    /// `lockstep IMAGE MAP SCRIPT PLAN JOURNAL`, with the options of `run`: the run of a plan, with its journal.
    Lockstep {
        image: &'a str,
        map: &'a str,
        script: &'a str,
        plan: &'a str,
        journal: &'a str,
        options: Options,
    },
    /// `asm SOURCE IMAGE`: the image that the source means is written.
    Asm {
        source: &'a str,
        image: &'a str,
    },
    /// `elf ELF IMAGE MAP`: the image and the map of the executable are written, under two names.
    Elf {
        executable: &'a str,
        image: &'a str,
        map: &'a str,
    },
    /// `load NUMBER`, from 0 to 4,294,967,295: the input that the number says is run.
    Load {
        number: u32,
    },
}

/// Why the words give nothing.
#[derive(Clone, Copy, Debug, PartialEq, Eq)]
pub enum WordsFault {
    /// They are no use of the program.
    Usage,
    /// Memory could not be had.
    OutOfMemory,
}
