//! The sessions of a journal and their late harts.
ghost use Rattle.std.specs.Prelude.{◌≡◌, ◌+◌, ◌<◌, ◌^◌, length};
ghost use Rattle.mach_base.specs.declared.limits.TheConstants.{MASK_HARTS};
ghost use Rattle.atom_mach.specs.Texts.{harts_in};
ghost use Rattle.kdbsim_load.specs.Counts.{opens, late_at, sessions_in, late_in};

use mach_base::{Entry, MASK_HARTS, Packed, has_bit};

/// How many sessions were opened, and how many harts were late in them, summed over the sessions.
#[derive(Clone, Copy, Debug)]
pub struct Counts {
    pub sessions: u64,
    pub late: u64,
}

/// The counts of a journal.
pub fn counts_of(journal: &Packed) -> Counts
    requires sessions { sessions_in journal.now.entries < 2 ^ 64 }
    requires late { late_in journal.now.entries < 2 ^ 64 }
    ensures sessions { result.sessions ≡ sessions_in journal.now.entries }
    ensures late { result.late ≡ late_in journal.now.entries }
{
    let mut counts = Counts {
        sessions: 0,
        late: 0,
    };
    for entry in journal.iter() {
        counts = with_entry(counts, entry);
    }
    counts
}

/// The counts with those of one more entry.
fn with_entry(counts: Counts, entry: Entry) -> Counts
    requires sessions { counts.sessions + opens entry < 2 ^ 64 }
    requires late { counts.late + late_at entry < 2 ^ 64 }
    ensures sessions { result.sessions ≡ counts.sessions + opens entry }
    ensures late { result.late ≡ counts.late + late_at entry }
{
    match entry {
        Entry::Open(_, late) => Counts {
            sessions: counts.sessions + 1,
            late: counts.late + late_harts(late),
        },
        _ => counts,
    }
}

/// How many harts a mask has.
fn late_harts(mask: u64) -> u64
    ensures { result ≡ length (harts_in mask) }
{
    (0..MASK_HARTS).filter(|hart| has_bit(mask, *hart)).count() as u64
}
