//! The status of each reader's refusal.

use crate::Status;
use asm_text::SourceFault;
use atom_mach::ScriptFault;
use elf_img::ElfFault;
use img_text::ImageFault;
use jrn_text::JournalFault;
use plan_text::PlanFault;
use sym_map::MapFault;

impl From<ImageFault> for Status {
    ghost use Rattle.std.specs.Prelude.{◌≡◌};
    ghost use Rattle.kdbsim_files.specs.Faults.{status_of_image};

    ghost from_gives = { λ f s. s ≡ status_of_image f };

    fn from(fault: ImageFault) -> Status {
        match fault {
            ImageFault::Bad { line, why } => Status::BadImage { line, why },
            ImageFault::TooLarge { what, size } => Status::TooLarge { what, size },
            ImageFault::OutOfMemory => Status::OutOfMemory,
        }
    }
}

impl From<MapFault> for Status {
    ghost use Rattle.std.specs.Prelude.{◌≡◌};
    ghost use Rattle.kdbsim_files.specs.Faults.{status_of_map};

    ghost from_gives = { λ f s. s ≡ status_of_map f };

    fn from(fault: MapFault) -> Status {
        match fault {
            MapFault::Bad { line } => Status::BadMap { line },
            MapFault::TooLarge { what, size } => Status::TooLarge { what, size },
            MapFault::OutOfMemory => Status::OutOfMemory,
        }
    }
}

impl From<ScriptFault> for Status {
    ghost use Rattle.std.specs.Prelude.{◌≡◌};
    ghost use Rattle.kdbsim_files.specs.Faults.{status_of_script};

    ghost from_gives = { λ f s. s ≡ status_of_script f };

    fn from(fault: ScriptFault) -> Status {
        match fault {
            ScriptFault::Bad { line } => Status::BadScript { line },
            ScriptFault::TooLarge { what, size } => Status::TooLarge { what, size },
            ScriptFault::OutOfMemory => Status::OutOfMemory,
        }
    }
}

impl From<PlanFault> for Status {
    ghost use Rattle.std.specs.Prelude.{◌≡◌};
    ghost use Rattle.kdbsim_files.specs.Faults.{status_of_plan};

    ghost from_gives = { λ f s. s ≡ status_of_plan f };

    fn from(fault: PlanFault) -> Status {
        match fault {
            PlanFault::Bad { line } => Status::BadPlan { line },
            PlanFault::TooLarge { what, size } => Status::TooLarge { what, size },
            PlanFault::OutOfMemory => Status::OutOfMemory,
        }
    }
}

impl From<JournalFault> for Status {
    ghost use Rattle.std.specs.Prelude.{◌≡◌};
    ghost use Rattle.kdbsim_files.specs.Faults.{status_of_journal};

    ghost from_gives = { λ f s. s ≡ status_of_journal f };

    fn from(fault: JournalFault) -> Status {
        match fault {
            JournalFault::Bad { line } => Status::BadJournal { line },
            JournalFault::TooLarge { what, size } => Status::TooLarge { what, size },
            JournalFault::OutOfMemory => Status::OutOfMemory,
        }
    }
}

impl From<SourceFault> for Status {
    ghost use Rattle.std.specs.Prelude.{◌≡◌};
    ghost use Rattle.kdbsim_files.specs.Faults.{status_of_source};

    ghost from_gives = { λ f s. s ≡ status_of_source f };

    fn from(fault: SourceFault) -> Status {
        match fault {
            SourceFault::Bad { line } => Status::BadSource { line },
            SourceFault::TooLarge { what, size } => Status::TooLarge { what, size },
            SourceFault::OutOfMemory => Status::OutOfMemory,
        }
    }
}

impl From<ElfFault> for Status {
    ghost use Rattle.std.specs.Prelude.{◌≡◌};
    ghost use Rattle.kdbsim_files.specs.Faults.{status_of_elf};

    ghost from_gives = { λ f s. s ≡ status_of_elf f };

    fn from(fault: ElfFault) -> Status {
        match fault {
            ElfFault::Bad(why) => Status::BadElf { why },
            ElfFault::TooLarge { what, size } => Status::TooLarge { what, size },
            ElfFault::OutOfMemory => Status::OutOfMemory,
        }
    }
}
